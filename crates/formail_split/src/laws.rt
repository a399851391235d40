//! Laws of the definitions, each as the contract of a call that does nothing.
ghost use Rattle.formail_split.specs.Examples.{Examples};
ghost use Rattle.formail_split.specs.Laws.{FineTookAll, FailuresHaveCalls};
ghost use Rattle.formail_split.specs.Mailboxes.{PiecesStandAlone, DeliveriesAddOne, DeliveriesAreMails};
ghost use Rattle.formail_split.specs.Mailboxes.{ReadyMailsHaveLines};
ghost use Rattle.formail_split.specs.Written.{EditedStandAlone, EditedAreMails};

use pm_journal::child_laws::{child_faults_have_calls, children_run_right};

/// Where the worst is fine, each child took exactly its text.
pub fn fine_took_all()
    ensures { FineTookAll }
{
    children_run_right();
}

/// Where the worst is a failure, a call of the host failed.
pub fn failures_have_calls()
    ensures { FailuresHaveCalls }
{
    child_faults_have_calls();
}

/// What procmail appends to a mailbox, except under the flag `r`, is one mail whatever its body says, if the mail has
/// its line `From `.
pub fn pieces_stand_alone()
    ensures { PiecesStandAlone }
{}

/// A mailbox that is empty, or ends with an empty line, has one mail more after such a delivery, and it is what was
/// appended.
pub fn deliveries_add_one()
    ensures { DeliveriesAddOne }
{
    pieces_stand_alone();
}

/// A mailbox is cut into those mails that it had and those that were delivered, in their order: no mail can forge a
/// second one.
pub fn deliveries_are_mails()
    ensures { DeliveriesAreMails }
{
    deliveries_add_one();
}

/// Each mail has its line `From ` when procmail begins with it, if the clock answers and the option `-m` isn't given.
pub fn ready_mails_have_lines()
    ensures { ReadyMailsHaveLines }
{}

/// What formail writes of a mail is one mail, whatever the mail says: without `-x`, `-X`, `-r`, `-f` and `-b`, with a
/// text of `-p` that hides a line `From `, and if no text of its edits brings an empty line.
pub fn edited_stand_alone()
    ensures { EditedStandAlone }
{}

/// So what it writes of several mails is cut into just what it wrote of each, in their order, also where it is appended
/// to a mailbox.
pub fn edited_are_mails()
    ensures { EditedAreMails }
{
    edited_stand_alone();
}

/// The definitions cut some short mailboxes as the manual says, and tell the worst of some children.
pub fn examples()
    ensures { Examples }
{}
