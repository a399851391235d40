//! Laws on the reading of an rcfile, in the words of the language.
ghost use Rattle.std.specs.Prelude.{List, ℕ, ◌≡◌, ◌++◌, Bool, Option, Some, None, false, true, ◌∷◌};
ghost use Rattle.pm_bytes.specs.Alphabet.{COLON, BACKSLASH, NEWLINE};
ghost use Rattle.pm_bytes.specs.Letter.{is_blank_byte};
ghost use Rattle.pm_bytes.specs.Number.{decimal_value};
ghost use Rattle.pm_recipe.specs.Conditions.{are_blank};
ghost use Rattle.pm_recipe.specs.Joins.{unjoined, unindented};
ghost use Rattle.pm_recipe.specs.Bytes.{begins_with};
ghost use Rattle.pm_recipe.specs.Colon.{lock_of, flags_part, has_junk};
ghost use Rattle.pm_recipe.specs.Quotes.{IsValue};
ghost use Rattle.pm_recipe.specs.Spells.{IsCut, Piece, IsHead, IsLockHead};
ghost use Rattle.pm_recipe.specs.Says.{IsColonText};
ghost use Rattle.pm_recipe.specs.Spans.{start, newlines};
ghost use Rattle.pm_recipe.specs.Tree.{Trees};
ghost use Rattle.pm_recipe.specs.Rc.{IsRc};
ghost use Rattle.pm_recipe.specs.Listed.{rc_of};
ghost use Rattle.pm_recipe.specs.Letters.{AreLetters};
ghost use Rattle.pm_recipe.specs.Weights.{digits_value};
ghost use Rattle.pm_recipe.specs.Examples.{OfStatements, OfLines, OfColonLines, OfConditions, OfRcfiles};

/// Each definition of rcfiles says of some short ones what the manual does.
pub fn examples()
    ensures statements { OfStatements }
    ensures lines { OfLines }
    ensures colon_lines { OfColonLines }
    ensures conditions { OfConditions }
    ensures rcfiles { OfRcfiles }
{}

/// A text has one cut into pieces.
pub fn one_cut()
    ensures { (text : List ℕ) (pieces others : List Piece) → IsCut 1 start pieces text → IsCut 1 start others text
        → pieces ≡ others }
{}

/// A text has a list of statements, and no other.
pub fn one_rc()
    ensures some { (text : List ℕ) → IsRc text (rc_of text) }
    ensures once { (text : List ℕ) (statements : Trees) → IsRc text statements → statements ≡ rc_of text }
{}

/// What is read out of a colon line is what its form says.
pub fn colon_line_law()
    ensures flags { (text after : List ℕ) → (h : IsHead text after) → flags_part text ≡ h.flags }
    ensures none { (text after : List ℕ) → IsHead text after → begins_with COLON after ≡ false → lock_of text ≡ None }
    ensures lock { (text lock tail : List ℕ) → IsLockHead text (lock ++ tail) → IsValue lock tail
        → lock_of text ≡ Some lock }
    ensures junk { (text flags : List ℕ) (lock : Option (List ℕ)) (junk : Bool) → IsColonText text flags lock junk
        → junk ≡ has_junk text }
{}

/// Each letter sets its flag, and no other byte sets one.
pub fn letters_law()
    ensures { AreLetters }
{}

/// In joined lines a backslash before a newline is gone, and that newline; other bytes stay. In a condition's line the
/// blanks after it are gone too.
pub fn joins_law()
    ensures joined { (front rest : List ℕ) → newlines front ≡ 0
        → unjoined (front ++ (BACKSLASH ∷ (NEWLINE ∷ rest))) ≡ front ++ unjoined rest }
    ensures plain { (text : List ℕ) → newlines text ≡ 0 → unjoined text ≡ text }
    ensures unindented { (front blanks : List ℕ) (byte : ℕ) (rest : List ℕ) → newlines front ≡ 0 → are_blank blanks
        ≡ true
        → is_blank_byte byte ≡ false → unindented (front ++ (BACKSLASH ∷ (NEWLINE ∷ (blanks ++ (byte ∷ rest)))))
        ≡ front ++ unindented (byte ∷ rest) }
    ensures unindented_plain { (text : List ℕ) → newlines text ≡ 0 → unindented text ≡ text }
{}

/// The number that a weight's digits write is their decimal value: each counts by the power of ten of its place.
pub fn digits_law()
    ensures { (text : List ℕ) → digits_value 0 text ≡ decimal_value text }
{}
