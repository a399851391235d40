//! The copies of a process that wait for its end.
ghost use Rattle.std.specs.Prelude.{◌≡◌, ◌∷◌, [], MatchOption, IfSome};
ghost use Rattle.pm_run.specs.Tasks.{tasks_of, IsNext};

use crate::task::{Copy, Task, task_for};
use std::alloc::Global;
use std::collections::VecDeque;

/// The copies that wait, the first one first, and how many the run has made.
#[derive(Drop)]
pub struct Queue {
    pub(crate) copies: VecDeque<Copy>,
    pub(crate) made: u32,
}

impl Queue {
    /// No copy waits. It takes no memory.
    pub fn new(alloc: Global) -> Queue
        ensures empty { result.copies.items ≡ [] }
        ensures none { result.made ≡ 0 }
    {
        Queue {
            copies: VecDeque::new(alloc),
            made: 0,
        }
    }

    /// The first of the tasks that wait, which waits no more. It takes no memory.
    pub fn next(&mut self) -> Option<Task>
        ensures next { MatchOption result (tasks_of self.old ≡ [])
            (λ task. IsNext task (tasks_of self.old) (tasks_of self.new)) }
        ensures free { IfSome result (λ task. task.mind.locks.names ≡ []) }
        ensures made { self.new.made ≡ self.old.made }
    {
        match next_copy(self) {
            None => None,
            Some(copy) => {
                let Copy { frames, process } = copy;
                Some(task_for(frames, process))
            }
        }
    }
}

/// The first of the copies that wait, which waits no more.
pub fn next_copy(queue: &mut Queue) -> Option<Copy>
    ensures items { MatchOption result (queue.old.copies.items ≡ [])
        (λ copy. queue.old.copies.items ≡ copy ∷ queue.new.copies.items) }
    ensures made { queue.new.made ≡ queue.old.made }
{
    queue.copies.pop_front()
}
