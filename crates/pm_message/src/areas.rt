//! What of a mail conditions search (procmailrc(5), "Recipe flags").
ghost use Rattle.std.specs.Prelude.{◌≡◌, ◌++◌, ◌∷◌, ◌<◌, IfOk, IfSome, codes, false, length};
ghost use Rattle.std.specs.List.{list_any};
ghost use Rattle.pm_bytes.specs.Alphabet.{NEWLINE};
ghost use Rattle.pm_message.specs.Area.{area_of, ends_empty, unfolded};
ghost use Rattle.pm_message.specs.Area;
ghost use Rattle.pm_message.specs.FromLine.{is_newline};

use crate::Message;
use memchr::memchr;
use pm_bytes::{Blob, Memory, is_blank};
use std::alloc::Global;

/// What of a mail is searched, as the flags `H` and `B` of procmailrc(5) say.
#[derive(Clone, Copy)]
pub enum Place {
    /// The head, without the newline of its empty line, where each folded field is one line.
    H,
    /// The body as it is.
    B,
    /// The area of `H`, a newline, and the body.
    Hb,
}

/// The bytes before the first newline, and those after it.
fn cut_at_newline(bytes: &[u8]) -> Option<(&[u8], &[u8])>
    ensures cut { IfSome result (λ cut. (bytes.now ≡ cut.0.now ++ NEWLINE ∷ cut.1.now)
        × (list_any is_newline cut.0.now ≡ false)) }
    ensures none { result ≡ None → list_any is_newline bytes.now ≡ false }
{
    let Some(place) = memchr(b'\n', bytes) else {
        return None;
    };
    Some((&bytes[..place], &bytes[place + 1..]))
}

/// What goes on after a newline and the blank there; None where no blank stands there.
fn past_blank(behind: &[u8]) -> Option<&[u8]>
    ensures folds { IfSome result (λ more. unfolded (NEWLINE ∷ behind.now) ≡ codes " " ++ unfolded more.now) }
    ensures shorter { IfSome result (λ more. length more.now < length behind.now) }
    ensures breaks { result ≡ None → unfolded (NEWLINE ∷ behind.now) ≡ codes "\n" ++ unfolded behind.now }
{
    match behind.split_first() {
        None => None,
        Some((first, more)) => { if is_blank(*first) { Some(more) } else { None } }
    }
}

/// Each newline with the blank after it as one space.
#[tactic(auto, using(crate::proofs::FoldLemmas::folded_on, crate::proofs::FoldLemmas::folded_end))]
fn unfold(alloc: Global, bytes: &[u8]) -> Result<Blob, Memory>
    ensures { IfOk result (λ text. text ≡ unfolded bytes.now) }
{
    let mut text = Blob::empty(alloc);
    let mut rest = bytes;
    while let Some((line, behind)) = cut_at_newline(rest) {
        text.push_slice(line)?;
        match past_blank(behind) {
            Some(more) => {
                text.push_slice(b" ")?;
                rest = more;
            }
            None => {
                text.push_slice(b"\n")?;
                rest = behind;
            }
        }
    }
    text.push_slice(rest)?;
    Ok(text)
}

/// The head without the newline of the empty line that ends it.
fn without_empty_line(head: &[u8]) -> &[u8]
    ensures { result.now ≡ Area.without_empty_line head.now }
{
    if head == b"\n".as_slice() || head.ends_with(b"\n\n") {
        &head[..head.len() - 1]
    } else {
        head
    }
}

/// The area of the head, in which each newline reads as one space together with the blank after it, so that a folded
/// field is one line.
pub fn head_area(alloc: Global, message: &Message) -> Result<Blob, Memory>
    ensures { IfOk result (λ area. area ≡ Area.head_area message.now) }
{
    unfold(alloc, without_empty_line(message.head.as_slice()))
}

/// The area of both parts: that of the head, a newline, and the body.
pub fn both_areas(alloc: Global, head_area: &[u8], message: &Message) -> Result<Blob, Memory>
    requires { head_area.now ≡ Area.head_area message.now }
    ensures { IfOk result (λ area. area ≡ area_of message.now Place.Hb) }
{
    let body = message.body.as_slice();
    let mut text = Vec::with_capacity(alloc, head_area.len() + 1 + body.len())?;
    text.extend_from_slice(head_area)?;
    text.extend_from_slice(b"\n")?;
    text.extend_from_slice(body)?;
    Ok(Blob::from_vec(text))
}

/// The bytes of a mail that a condition searches. `Memory` is the only error.
pub fn area(alloc: Global, message: &Message, place: Place) -> Result<Blob, Memory>
    ensures { IfOk result (λ area. area ≡ area_of message.now place) }
{
    match place {
        Place::H => head_area(alloc, message),
        Place::B => message.body.copy(alloc),
        Place::Hb => {
            let head = head_area(alloc, message)?;
            both_areas(alloc, head.as_slice(), message)
        }
    }
}
