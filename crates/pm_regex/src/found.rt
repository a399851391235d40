//! What a search for an expression finds.

/// Where a match stands, as places in the searched area.
#[derive(Clone, Copy, Drop)]
pub struct Found {
    pub start: usize,
    /// Where the `\/` stands, if the expression has one: MATCH begins there.
    pub cut: Option<usize>,
    pub end: usize,
}
