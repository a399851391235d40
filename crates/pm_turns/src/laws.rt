//! What holds over every schedule, as the contract of a call that does nothing.
ghost use Rattle.pm_turns.specs.Laws.{Always, RestsWhereFree, IsInOrder, OneAtATime, EachClean, LockIsKept};
ghost use Rattle.pm_turns.specs.Laws.{OrderIsWhole};
ghost use Rattle.pm_turns.specs.Laws.{OrderGrows, SomeDeliversAll, EachDelivers, StandsInTree};

/// Deliveries under one lock leave what they would leave one after another, for every opening, number of writers and
/// schedule, up to the first lock that is removed by force. All who change the mailbox or the lock are such writers.
pub fn order_law()
    ensures whole_where_free { Always RestsWhereFree }
    ensures in_order { Always IsInOrder }
    ensures one_at_a_time { Always OneAtATime }
    ensures clean { Always EachClean }
    ensures lock { Always LockIsKept }
    ensures order { Always OrderIsWhole }
    ensures grows { OrderGrows }
    ensures delivers { SomeDeliversAll }
    ensures calls { EachDelivers }
    ensures tree { StandsInTree }
{}
