//! Laws of the definitions, each as the contract of a call that does nothing.
ghost use Rattle.formail_edit.specs.Examples.{Examples};
ghost use Rattle.formail_edit.specs.EditLaws.{EditsInWords};
ghost use Rattle.formail_edit.specs.Laws.{HeadersStayWhole};

/// The definitions make of some short mails what the manual says.
pub fn examples()
    ensures { Examples }
{}

/// A header has no empty line after any edits whose texts bring none, so it ends where the mail's header is said to
/// end.
pub fn headers_stay_whole()
    ensures { HeadersStayWhole }
{}

/// Each edit of the fields does what its letter says, in their order, and leaves those that its name doesn't mean.
pub fn edits_in_words()
    ensures { EditsInWords }
{}
