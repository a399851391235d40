//! The bytes that have a name.
ghost use Rattle.std.specs.Prelude.{◌≡◌, [], ◌∷◌, codes};

pub const SPACE: u8 = b' ';

pub const TAB: u8 = b'\t';

pub const NEWLINE: u8 = b'\n';

pub const BACKSLASH: u8 = b'\\';

pub const SINGLE_QUOTE: u8 = b'\'';

pub const DOUBLE_QUOTE: u8 = b'"';

pub const BACKQUOTE: u8 = b'`';

pub const DOLLAR: u8 = b'$';

pub const HASH: u8 = b'#';

pub const COLON: u8 = b':';

pub const UNDERSCORE: u8 = b'_';

pub const OPEN_BRACE: u8 = b'{';

pub const CLOSE_BRACE: u8 = b'}';

pub const OPEN_PARENTHESIS: u8 = b'(';

pub const CLOSE_PARENTHESIS: u8 = b')';

pub const OPEN_BRACKET: u8 = b'[';

pub const CLOSE_BRACKET: u8 = b']';

pub const EQUALS: u8 = b'=';

pub const BAR: u8 = b'|';

pub const BANG: u8 = b'!';

pub const STAR: u8 = b'*';

pub const QUESTION: u8 = b'?';

pub const CARET: u8 = b'^';

pub const DOT: u8 = b'.';

pub const PLUS: u8 = b'+';

pub const MINUS: u8 = b'-';

/// Each name stands for the byte of its character.
pub fn named_bytes()
    ensures blanks { SPACE ∷ TAB ∷ NEWLINE ∷ [] ≡ codes " \t\n" }
    ensures quotes { BACKSLASH ∷ SINGLE_QUOTE ∷ DOUBLE_QUOTE ∷ BACKQUOTE ∷ [] ≡ codes "\\'\"`" }
    ensures braces { OPEN_BRACE ∷ CLOSE_BRACE ∷ [] ≡ codes "{}" }
    ensures brackets { OPEN_PARENTHESIS ∷ CLOSE_PARENTHESIS ∷ OPEN_BRACKET ∷ CLOSE_BRACKET ∷ [] ≡ codes "()[]" }
    ensures signs { DOLLAR ∷ HASH ∷ COLON ∷ UNDERSCORE ∷ EQUALS ∷ BAR ∷ BANG ∷ [] ≡ codes "$#:_=|!" }
    ensures others { STAR ∷ QUESTION ∷ CARET ∷ DOT ∷ PLUS ∷ MINUS ∷ [] ≡ codes "*?^.+-" }
{}
