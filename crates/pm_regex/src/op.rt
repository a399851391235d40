//! What an expression is made of: its atoms, how often a piece stands, and the operators that spell it in postfix
//! order.

/// What one place of the searched text has to be, but for bracket expressions.
#[derive(Clone, Copy, Drop)]
pub enum Atom {
    Byte(u8),
    /// `.`
    Any,
    /// `^`
    LineStart,
    /// `$`
    LineEnd,
    /// `\<`
    WordStart,
    /// `\>`
    WordEnd,
    /// `^^` at the front of a branch, but not directly after `\/`.
    AreaStart,
    /// `^^` elsewhere.
    AreaEnd,
}

/// How often a piece may stand.
#[derive(Clone, Copy, Drop)]
pub enum Times {
    /// `*`
    Star,
    /// `+`
    Plus,
    /// `?`
    Maybe,
}

/// An operator of an expression in postfix order: each stands after its operands.
#[derive(Clone, Copy, Drop)]
pub enum Op {
    /// The expression of no bytes.
    Nothing,
    One(Atom),
    /// The bytes from the first to the last, for the bracket expression that follows.
    Range(u8, u8),
    /// A bracket expression of the ranges before it; true where it begins with `^`.
    Set(bool),
    /// Two expressions one after the other.
    Seq,
    /// One of two expressions.
    Either,
    Repeat(Times),
}
