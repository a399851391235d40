//! What the definitions say of small mails, as the contract of a call that does nothing.
ghost use Rattle.pm_message.specs.Examples.{HeadExamples, FieldExamples, AreaExamples};
ghost use Rattle.pm_message.specs.Examples.{PieceExamples, FromLineExamples, DateExamples};

/// Each definition of this crate says of some small mails what their readers expect.
pub fn examples()
    ensures heads { HeadExamples }
    ensures fields { FieldExamples }
    ensures areas { AreaExamples }
    ensures pieces { PieceExamples }
    ensures from_lines { FromLineExamples }
    ensures dates { DateExamples }
{}
