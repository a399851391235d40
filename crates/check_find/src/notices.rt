//! Mistakes that were noticed, in the order of the text's spans.
use crate::codes::Mistake;
use pm_bytes::Memory;
use pm_recipe::Span;

/// A mistake, and the span that it is about.
#[derive(Clone, Copy)]
pub struct Notice<'a> {
    pub mistake: Mistake,
    pub about: Span<'a>,
}

/// Puts a notice, if there is a reason for it.
pub fn put_if<'a>(
    noticed: bool,
    mistake: Mistake,
    about: &Span<'a>,
    notices: &mut Vec<Notice<'a>>,
) -> Result<(), Memory> {
    if noticed {
        notices.push(Notice {
            mistake,
            about: *about,
        })?;
    }
    Ok(())
}
