//! Laws of the definitions, each as the contract of a call that does nothing.
ghost use Rattle.formail_extra.specs.Examples.{Examples};
ghost use Rattle.formail_extra.specs.Laws.{MarksByFront};

/// The definitions make of some short mails and caches what the manual says.
pub fn examples()
    ensures { Examples }
{}

/// To look through the first 2,097,152 bytes of a cache marks mails as to look through all of them does.
pub fn marks_by_front()
    ensures { MarksByFront }
{}
