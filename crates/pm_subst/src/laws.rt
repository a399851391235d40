//! Laws of texts, each as the contract of a call that does nothing.
ghost use Rattle.pm_subst.specs.Examples.{Examples};
ghost use Rattle.pm_subst.specs.Laws.{PlainStands, SingleStands, SinglesStay, BlanksPart, OneWord, NoCommand};
ghost use Rattle.pm_subst.specs.declared.kinds.Mode.TheVariants as mode;

/// Each definition of texts says of some short ones what the manual does.
pub fn examples()
    ensures { Examples }
{}

/// A text in which no byte has a meaning is its own one word in every mode.
pub fn plain_stands()
    ensures { PlainStands }
{}

/// A text in single quotes is that text, and inside double quotes the single quotes are plain bytes.
pub fn single_stands()
    ensures one { SingleStands mode.One }
    ensures many { SingleStands mode.Many }
    ensures quoted { SinglesStay }
{}

/// A blank parts the words of a text where words are split, and else any text is one word.
pub fn blanks_part()
    ensures many { BlanksPart }
    ensures one { OneWord mode.One }
    ensures quoted { OneWord mode.Quoted }
{}

/// A text without a backquote has no command.
pub fn no_command()
    ensures { NoCommand }
{}
