//! A mail that keeps what conditions search and mailboxes get, so that each is made once for it.
ghost use Rattle.std.specs.Prelude.{◌≡◌, Some, IfOk, IfSome, OnErr};
ghost use Rattle.pm_message.specs.Area.{area_of};
ghost use Rattle.pm_message.specs.Area;
ghost use Rattle.pm_message.specs.Piece.{piece_of};
ghost use Rattle.pm_message.specs.Piece;
ghost use Rattle.pm_message.specs.Split.{split_of, whole_of};

use crate::areas::{both_areas, head_area};
use crate::pieces::{end_unless_empty, needs_escape};
use crate::{Feed, Kind, Message, Place, divide, piece, whole};
use pm_bytes::{Blob, Memory};
use std::alloc::Global;
use std::marker::Model;

// From so many bytes on a body is large.
const LARGE_BODY: usize = 65_536;

/// A mail in one piece and in its two parts, which have the same memory, with what was made of it so far: the area of
/// its head, that of its head and body, and what a mailbox gets. It may have the newlines behind it that end it in a
/// mailbox. Contracts see its two parts.
#[derive(Drop)]
pub struct Mail {
    parts: Message,
    whole: Blob,
    ended: Option<Blob>,
    head_area: Option<Blob>,
    both_areas: Option<Blob>,
    mailbox: Option<MailboxPiece>,
}

/// What a mailbox gets of a mail, with what was asked for.
#[derive(Drop)]
pub(crate) struct MailboxPiece {
    feed: Feed,
    raw: bool,
    piece: Blob,
}

impl Model for Mail {
    ghost use Rattle.pm_message.specs.declared.head.Message.{Message};

    ghost Value = { Message };

    ghost use Rattle.pm_message.specs.Kept.{AreKept};

    ghost view = { λ mail. mail.parts };

    ghost invariant = { AreKept };
}

impl Mail {
    /// The mail of these bytes, in their memory. Nothing is made of it yet.
    pub fn split(alloc: Global, mut bytes: Blob) -> Result<Mail, Memory>
        ensures { IfOk result (λ mail. mail ≡ split_of bytes) }
    {
        bytes.share()?;
        let whole = bytes.copy(alloc)?;
        let parts = divide(alloc, bytes)?;
        Ok(Mail {
            parts,
            whole,
            ended: None,
            head_area: None,
            both_areas: None,
            mailbox: None,
        })
    }

    /// The mail that `split` gives. The newlines that end it in a mailbox are put behind its bytes, so that a mailbox
    /// gets the mail's own memory if no line is escaped. Bytes that share their memory are copied for that, unless
    /// those newlines follow them in it.
    pub fn split_own(alloc: Global, mut bytes: Blob) -> Result<Mail, Memory>
        ensures { IfOk result (λ mail. mail ≡ split_of bytes) }
    {
        let length = bytes.len();
        end_unless_empty(&mut bytes)?;
        bytes.share()?;
        let whole = bytes.part(alloc, 0, length)?;
        let parts = divide(alloc, whole.copy(alloc)?)?;
        Ok(Mail {
            parts,
            whole,
            ended: Some(bytes),
            head_area: None,
            both_areas: None,
            mailbox: None,
        })
    }

    /// The mail of these parts. `Memory` is the only error.
    pub fn of(alloc: Global, parts: Message) -> Result<Mail, Memory>
        ensures { IfOk result (λ mail. mail ≡ parts) }
    {
        let whole = whole(alloc, &parts)?;
        Ok(Mail {
            parts,
            whole,
            ended: None,
            head_area: None,
            both_areas: None,
            mailbox: None,
        })
    }

    /// The header and the body, without what was made of them.
    pub fn into_parts(self) -> Message
        ensures { result ≡ self }
    {
        let Mail { parts, .. } = self;
        parts
    }

    pub fn parts(&self) -> &Message
        ensures { result.now ≡ self.now }
    {
        &self.parts
    }

    /// What of the mail is searched, as `area` has it. It is made once; later ones have the same memory.
    pub fn area(&mut self, alloc: Global, place: Place) -> Result<Blob, Memory>
        ensures area { IfOk result (λ area. area ≡ area_of self.old place) }
        ensures same { self.new ≡ self.old }
    {
        match place {
            Place::B => self.parts.body.copy(alloc),
            Place::H => self.area_of_head(alloc),
            Place::Hb => self.area_of_both(alloc),
        }
    }

    fn area_of_head(&mut self, alloc: Global) -> Result<Blob, Memory>
        ensures area { IfOk result (λ area. area ≡ Area.head_area self.old) }
        ensures same { self.new ≡ self.old }
    {
        if let Some(area) = &self.head_area {
            return area.copy(alloc);
        }
        let area = head_area(alloc, &self.parts)?;
        keep(alloc, area, &mut self.head_area)
    }

    fn area_of_both(&mut self, alloc: Global) -> Result<Blob, Memory>
        ensures area { IfOk result (λ area. area ≡ area_of self.old Place.Hb) }
        ensures same { self.new ≡ self.old }
    {
        if let Some(area) = &self.both_areas {
            return area.copy(alloc);
        }
        let head = self.area_of_head(alloc)?;
        let area = both_areas(alloc, head.as_slice(), &self.parts)?;
        keep(alloc, area, &mut self.both_areas)
    }

    /// The mail in one piece, in the mail's own memory.
    pub fn whole(&self, alloc: Global) -> Result<Blob, Memory>
        ensures { IfOk result (λ bytes. bytes ≡ whole_of self.now) }
    {
        self.whole.copy(alloc)
    }

    /// The wanted parts as they are, in the mail's own memory. The head of a large mail gets its own.
    pub fn chosen(&self, alloc: Global, feed: Feed) -> Result<Blob, Memory>
        ensures { IfOk result (λ bytes. bytes ≡ Piece.chosen self.now feed) }
    {
        match feed {
            Feed::Both => self.whole.copy(alloc),
            Feed::Head => self.head(alloc),
            Feed::Body => self.parts.body.copy(alloc),
        }
    }

    // The head. Where the body is large it is copied, so that what keeps the head doesn't keep the body.
    fn head(&self, alloc: Global) -> Result<Blob, Memory>
        ensures { IfOk result (λ head. head ≡ self.now.head) }
    {
        if self.parts.body.len() < LARGE_BODY {
            return self.parts.head.copy(alloc);
        }
        Blob::from_slice(alloc, self.parts.head.as_slice())
    }

    /// What a mailbox gets of the mail. The last piece is kept, and a call that asks for an equal one shares its
    /// memory.
    pub fn mailbox_piece(&mut self, alloc: Global, feed: Feed, raw: bool) -> Result<Blob, Memory>
        ensures piece { IfOk result (λ piece. piece ≡ piece_of self.old feed Kind.MailboxFile raw) }
        ensures same { self.new ≡ self.old }
    {
        if let Some(piece) = self.kept_piece(feed, raw) {
            return piece.copy(alloc);
        }
        let mut piece = self.new_piece(alloc, feed, raw)?;
        piece.share()?;
        let copy = piece.copy(alloc)?;
        self.mailbox = Some(MailboxPiece { feed, raw, piece });
        Ok(copy)
    }

    // What a mailbox gets that was asked for so before.
    fn kept_piece(&self, feed: Feed, raw: bool) -> Option<&Blob>
        ensures { IfSome result (λ piece. piece.now ≡ piece_of self.now feed Kind.MailboxFile raw) }
    {
        match &self.mailbox {
            None => None,
            Some(kept) => {
                if kept.feed == feed && kept.raw == raw {
                    Some(&kept.piece)
                } else {
                    None
                }
            }
        }
    }

    // What a mailbox gets, in the mail's own memory where that has it.
    fn new_piece(&self, alloc: Global, feed: Feed, raw: bool) -> Result<Blob, Memory>
        ensures { IfOk result (λ piece. piece ≡ piece_of self.now feed Kind.MailboxFile raw) }
    {
        match self.own_piece(feed, raw) {
            Some(own) => own.copy(alloc),
            None => piece(alloc, &self.parts, feed, Kind::MailboxFile, raw),
        }
    }

    // The mail's own memory, where a mailbox gets just that.
    fn own_piece(&self, feed: Feed, raw: bool) -> Option<&Blob>
        ensures { IfSome result (λ piece. piece.now ≡ piece_of self.now feed Kind.MailboxFile raw) }
    {
        match feed {
            Feed::Both => self.own_whole(raw),
            Feed::Head => None,
            Feed::Body => None,
        }
    }

    // The mail as it is, or with the newlines behind it, where no line is escaped.
    #[tactic(auto, using(crate::proofs::PieceLemmas::own_raw, crate::proofs::PieceLemmas::own_ended))]
    fn own_whole(&self, raw: bool) -> Option<&Blob>
        ensures { IfSome result (λ piece. piece.now ≡ piece_of self.now Feed.Both Kind.MailboxFile raw) }
    {
        if needs_escape(self.parts.body.as_slice()) {
            return None;
        }
        if raw {
            return Some(&self.whole);
        }
        match &self.ended {
            None => None,
            Some(text) => Some(text),
        }
    }

    /// A copy of the mail, with the areas and the piece that were made of it.
    pub fn copy(&self, alloc: Global) -> Result<Mail, Memory>
        ensures { IfOk result (λ mail. mail ≡ self.now) }
    {
        Ok(Mail {
            parts: self.parts.copy(alloc)?,
            whole: self.whole.copy(alloc)?,
            ended: copy_kept(alloc, &self.ended)?,
            head_area: copy_kept(alloc, &self.head_area)?,
            both_areas: copy_kept(alloc, &self.both_areas)?,
            mailbox: copy_piece(alloc, &self.mailbox)?,
        })
    }
}

/// Keeps what was made, and answers a copy of it.
fn keep(alloc: Global, made: Blob, kept: &mut Option<Blob>) -> Result<Blob, Memory>
    ensures copy { IfOk result (λ copy. copy ≡ made) }
    ensures kept { IfOk result (λ _. kept.new ≡ Some made) }
    ensures err { OnErr result (kept.new ≡ kept.old) }
{
    let mut made = made;
    made.share()?;
    let copy = made.copy(alloc)?;
    *kept = Some(made);
    Ok(copy)
}

fn copy_kept(alloc: Global, kept: &Option<Blob>) -> Result<Option<Blob>, Memory>
    ensures { IfOk result (λ copy. copy ≡ kept.now) }
{
    match kept {
        None => Ok(None),
        Some(made) => Ok(Some(made.copy(alloc)?)),
    }
}

fn copy_piece(alloc: Global, kept: &Option<MailboxPiece>) -> Result<Option<MailboxPiece>, Memory>
    ensures { IfOk result (λ copy. copy ≡ kept.now) }
{
    match kept {
        None => Ok(None),
        Some(MailboxPiece { feed, raw, piece }) => Ok(Some(MailboxPiece {
            feed: *feed,
            raw: *raw,
            piece: piece.copy(alloc)?,
        })),
    }
}
