//! What is said of each code. procmail-check(1), "CODES", has these texts.
ghost use Rattle.std.specs.Prelude.{◌≡◌};
ghost use Rattle.check_find.specs.Messages.{disk_text, fault_text, hint_text, message_text, mistake_text};

use crate::codes::{Code, Fault, Hint, Mistake};
use crate::rules::DiskMistake;

/// The text of a code.
pub fn message(code: Code) -> &'static str
    ensures { result.now ≡ message_text code }
{
    match code {
        Code::Defect(hint) => hint_message(hint),
        Code::Condition(fault) => fault_message(fault),
        Code::Mistake(mistake) => mistake_message(mistake),
    }
}

fn fault_message(fault: Fault) -> &'static str
    ensures { result.now ≡ fault_text fault }
{
    match fault {
        Fault::Weight => {
            "the weight is not valid: write whole numbers from -2147483647 to 2147483647, as in 10^1"
        }
        Fault::Size => "the size is not valid: write < or > and a number of bytes",
        Fault::Expression => "the regular expression is not valid",
    }
}

fn hint_message(hint: Hint) -> &'static str
    ensures { result.now ≡ hint_text hint }
{
    match hint {
        Hint::Other => "this line is not understood and is skipped",
        Hint::Junk => { "a flag, or what is after the flags, is not understood" }
        Hint::NoAction => "this recipe has no action line and does nothing",
        Hint::TooDeep => "blocks are nested over 1000 deep",
        Hint::MissingBrace => "the block that begins here has no } at its end",
        Hint::OpenQuote => "a quote is not closed",
        Hint::NoRecipe => "no recipe has begun here: write a line :0 before it",
        Hint::NoColon => "a recipe begins with :0",
        Hint::OldCount => {
            "a count of conditions, as in procmail 2: write :0, and a * before each condition"
        }
        Hint::ByteOrderMark => "the file begins with a byte order mark: save it without one",
        Hint::CarriageReturn => {
            "the line ends with a carriage return: save the file with Unix line ends"
        }
    }
}

fn mistake_message(mistake: Mistake) -> &'static str
    ensures { result.now ≡ mistake_text mistake }
{
    match mistake {
        Mistake::NoStar => "this condition has no * and is read as an action",
        Mistake::ColonVariable => {
            "variables are not expanded on the colon line: write the flags themselves"
        }
        Mistake::NoLock => "a mailbox file is written to without a lock file: write :0:",
        Mistake::Words => "each of these words is a mailbox of its own: quote a name with blanks",
        Mistake::Dot => "a dot matches any character: write \\. for a dot",
        Mistake::Unanchored => {
            "this also matches in the middle of any field: begin it with ^ and the name of a field"
        }
        Mistake::Plus => "a plus repeats the character before it: write \\+ for a plus",
        Mistake::Tag => "brackets match one of the characters in them: write \\[ and \\]",
        Mistake::Pcre => "procmail has no such operator, and these characters match themselves",
        Mistake::Comment => "the comment is a part of the condition: write it on a line of its own",
        Mistake::FilterW => "if this filter fails, its output replaces the mail: add the flag w",
        Mistake::PipeF => "the output of formail is lost: add the flag f",
        Mistake::Loop => {
            "two such forwards can send a mail to each other forever: test and add an X-Loop field"
        }
        Mistake::LostPart => {
            "the flag h or b alone drops a part of the mail that is delivered here"
        }
        Mistake::FormailLock => {
            "formail takes the lock file of its cache itself, and waits for this one: give it another name"
        }
        Mistake::Tilde => "a tilde is not expanded here: write $HOME",
        Mistake::BareWord => "a name alone on a line unsets this variable: is it a second action",
        Mistake::Dev => {
            "no mail can be delivered to this file in /dev: write /dev/null to discard the mail"
        }
        Mistake::Unreachable => {
            "a recipe before this one delivers every mail, and this one is never executed"
        }
    }
}

/// The text of what the disk shows.
pub fn disk_message(mistake: DiskMistake) -> &'static str
    ensures { result.now ≡ disk_text mistake }
{
    match mistake {
        DiskMistake::TooLong => "the file has over 1048576 bytes and is not read",
        DiskMistake::NoDirectory => "MAILDIR names a directory that is missing",
        DiskMistake::Unreadable => "this rcfile can not be read",
        DiskMistake::Writable => "other users can write to this rcfile",
        DiskMistake::Recursion => "this rcfile includes itself",
        DiskMistake::NoProgram => "this program is in no directory of PATH",
    }
}
