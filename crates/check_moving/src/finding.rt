//! A finding.
use crate::form::Form;

/// A form, and where it stands.
#[derive(Clone, Copy)]
pub struct Finding {
    pub form: Form,
    /// The line on which the statement, the condition or the action begins, from 1.
    pub line: u64,
    /// The place in the text of its first byte, from 0.
    pub first: usize,
}
