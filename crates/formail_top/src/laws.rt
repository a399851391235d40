//! Laws of the definitions, each as the contract of a call that does nothing.
ghost use Rattle.formail_top.specs.Examples.{Examples};
ghost use Rattle.formail_top.specs.Laws.{FailuresHaveCalls, OutputsAreMails};

/// The definitions make of some short command lines and mails what the manual says.
pub fn examples()
    ensures { Examples }
{}

/// 74 comes only where a read, a call of the host or a write failed.
pub fn failures_have_calls()
    ensures { FailuresHaveCalls }
{
    formail_split::laws::failures_have_calls();
}

/// What formail writes of some mails is cut again into just what it wrote of each, in their order, whatever the mails
/// say: no mail that goes through formail can forge another one. Not under `-x`, `-X`, `-r`, `-f` and `-b`, nor with a
/// text of `-p` that doesn't hide a line `From `, nor where `-R` gives a name that is empty or has a newline.
pub fn outputs_are_mails()
    ensures { OutputsAreMails }
{
    formail_split::laws::edited_are_mails();
}
