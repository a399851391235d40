//! What the words of the command line ask for.
ghost use Rattle.std.specs.Prelude.{◌≡◌};

use pm_bytes::Name;
use pm_journal::LockRule;
use std::collections::VecDeque;
use std::marker::Model;

/// A setting that holds for the names after it: the seconds of the sleep, the retries (`-r`), the seconds past which a
/// lock file is removed by force (`-l`), and the seconds of the suspension after that (`-s`).
#[derive(Clone, Copy)]
pub enum Setting {
    Sleep,
    Retries,
    Limit,
    Suspend,
}

/// A lock file that is to be made, or one that is to be removed (`-mu`).
#[derive(Drop)]
pub enum Task {
    Take { name: Name, rule: LockRule },
    Give { name: Name },
}

/// Tasks, in order.
#[derive(Drop)]
pub struct Tasks {
    items: VecDeque<Task>,
}

impl Model for Tasks {
    ghost use Rattle.std.specs.Prelude.{List};
    ghost use Rattle.lockfile_top.specs.declared.tasks.Task.{Task};

    ghost Value = { List Task };

    ghost view = { λ t. t.items.items };
}

impl Tasks {
    /// The tasks of a queue. It allocates nothing.
    pub fn from_queue(items: VecDeque<Task>) -> Tasks
        ensures { result ≡ items.items }
    {
        Tasks { items }
    }

    /// The tasks as a queue. It allocates nothing.
    pub fn into_queue(self) -> VecDeque<Task>
        ensures { result.items ≡ self }
    {
        self.items
    }
}

/// The tasks of a command line, and whether `-!` exchanges its two statuses.
#[derive(Drop)]
pub struct CommandLine {
    pub tasks: Tasks,
    pub inverted: bool,
}

/// How the tasks ended: each was done, or one wasn't.
#[derive(Clone, Copy)]
pub enum Ending {
    AllDone,
    GaveUp,
}
