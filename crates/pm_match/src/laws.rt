//! What the definitions say of short texts, as the contract of a call that does nothing.
ghost use Rattle.pm_match.specs.Examples.{OfLists, OfAnywhere};

/// The definitions of listed sets, and of a search from any place, say of short texts what their readers expect.
pub fn examples()
    ensures lists { OfLists }
    ensures anywhere { OfAnywhere }
{}
