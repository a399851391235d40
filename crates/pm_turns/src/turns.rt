//! Many writers of one mailbox, event by event.
ghost use Rattle.std.specs.Prelude.{◌≡◌, ◌<◌, ◌≤◌, ◌+◌, length, slice_get, IfOk, All, sum_by, map, cond};
ghost use Rattle.std.specs.Prelude.{vec_len, vec_capacity, [], ◌∷◌, ◌++◌, false};
ghost use Rattle.pm_turns.specs.Turning.{opens, begun as begun_is, happens, event, stepped, has_ended, is_over};
ghost use Rattle.pm_turns.specs.Workable.{IsTriable, piece_len};

use crate::mailbox::Mailbox;
use crate::turn::turn;
use crate::writers::{Delivery, Place, Stepped, Will, Writer};
use pm_bytes::{Blob, Memory};
use pm_locks::LockCore;
use std::alloc::Global;
use std::marker::Model;

/// Writers that share a mailbox and a lock.
#[derive(Drop)]
pub struct Turns {
    mailbox: Mailbox,
    locked: bool,
    writers: Vec<Delivery>,
    order: Vec<usize>,
    forced: bool,
}

impl Model for Turns {
    ghost use Rattle.std.specs.Prelude.{vec_len, vec_capacity};
    ghost use Rattle.pm_turns.specs.Turning.{Turning};
    ghost use Rattle.pm_turns.specs.Workable.{Workable};

    ghost Value = { Turning };

    ghost view = { λ t. record {
      mailbox = t.mailbox.text;
      locked = t.locked;
      writers = t.writers.items;
      order = t.order.items;
      forced = t.forced;
    } };

    ghost invariant = { λ t. Workable t.writers.items t.mailbox (vec_len t.order) (vec_capacity t.order) };
}

impl Turns {
    /// No writer has begun.
    pub fn new(
        alloc: Global,
        mailbox: Option<Blob>,
        locked: bool,
        writers: Vec<Writer>,
    ) -> Result<Turns, Memory>
        requires { All IsTriable writers.items }
        ensures { IfOk result (λ turns. turns ≡ opens mailbox locked writers.items) }
    {
        let room = all_bytes(writers.as_slice())?;
        let order = Vec::with_capacity(alloc, writers.len())?;
        let mailbox = Mailbox::new(alloc, mailbox, room)?;
        let begun = begin_all(alloc, writers)?;
        Ok(Turns {
            mailbox,
            locked,
            writers: begun,
            order,
            forced: false,
        })
    }

    /// The next call of a writer, taken as the will says.
    pub fn step(&mut self, writer: usize, will: Will) -> Stepped
        requires { writer < length self.old.writers }
        ensures state { self.new ≡ happens self.old (event writer will) }
        ensures answer { result ≡ stepped self.new.forced (has_ended (slice_get self.old.writers writer)) }
    {
        if self.forced {
            return Stepped::Forced;
        }
        if over(&self.writers[writer].place) {
            return Stepped::Over;
        }
        let outcome = turn(
            &mut self.writers[writer],
            &mut self.mailbox,
            self.locked,
            will,
        );
        self.locked = outcome.locked;
        note(&mut self.order, writer, outcome.got);
        self.forced = outcome.forced;
        went(outcome.forced)
    }
}

// It has nothing more to ask.
fn over(place: &Place) -> bool
    ensures { result ≡ is_over place.now }
{
    match place {
        Place::Gone(_, _) => true,
        Place::Away(_) => true,
        _ => false,
    }
}

fn note(order: &mut Vec<usize>, writer: usize, got: bool)
    requires { cond got 1 0 + vec_len order.old ≤ vec_capacity order.old }
    ensures items { order.new.items ≡ cond got (order.old.items ++ writer ∷ []) order.old.items }
    ensures len { vec_len order.new ≡ cond got 1 0 + vec_len order.old }
    ensures capacity { vec_capacity order.new ≡ vec_capacity order.old }
{
    if got {
        order.push_reserved(writer);
    }
}

fn went(forced: bool) -> Stepped
    ensures { result ≡ stepped forced false }
{
    if forced {
        Stepped::Forced
    } else {
        Stepped::Went
    }
}

// The bytes of all the pieces.
fn all_bytes(writers: &[Writer]) -> Result<usize, Memory>
    ensures { IfOk result (λ n. n ≡ sum_by piece_len writers.now) }
{
    let mut all: usize = 0;
    for writer in writers {
        match all.checked_add(writer.piece.len()) {
            Some(more) => all = more,
            None => return Err(Memory),
        }
    }
    Ok(all)
}

fn begin_all(alloc: Global, writers: Vec<Writer>) -> Result<Vec<Delivery>, Memory>
    requires { All IsTriable writers.items }
    ensures items { IfOk result (λ all. all.items ≡ map begun_is writers.items) }
{
    let mut all = Vec::with_capacity(alloc, writers.len())?;
    for writer in writers {
        all.push(begin(writer))?;
    }
    Ok(all)
}

fn begin(writer: Writer) -> Delivery
    requires { IsTriable writer }
    ensures { result ≡ begun_is writer }
{
    let core = LockCore::new(writer.sleep, writer.limit, writer.suspend, writer.tries);
    Delivery {
        piece: writer.piece,
        place: Place::Locking(core),
    }
}
