//! What a run comes to, by one rcfile and by another.
ghost use Rattle.std.specs.Prelude.{◌≡◌, IfOk};
ghost use Rattle.explain_mails.specs.Compared.{goes_elsewhere, comes_to_same};

use pm_bytes::{Blob, Memory};
use std::alloc::Global;
use std::marker::Model;
use test_text::is_same;

/// Where a mail goes, and the exit status.
#[derive(Drop)]
pub struct Outcome {
    places: Vec<Blob>,
    code: u8,
}

impl Model for Outcome {
    ghost use Rattle.explain_mails.specs.Went.{Went};

    ghost Value = { Went };

    ghost view = { λ o. record { names = o.places.items; status = o.code } };
}

impl Outcome {
    /// It takes no memory.
    pub fn new(names: Vec<Blob>, status: u8) -> Outcome
        ensures { result ≡ record { names = names.items; status = status } }
    {
        Outcome {
            places: names,
            code: status,
        }
    }

    /// The names of the destinations, in order.
    pub fn names(&self) -> &[Blob]
        ensures { result.now ≡ self.now.names }
    {
        self.places.as_slice()
    }

    /// The exit status.
    pub fn status(&self) -> u8
        ensures { result ≡ self.now.status }
    {
        self.code
    }
}

/// What a mail comes to by the old rcfile and by the new one.
#[derive(Drop)]
pub struct Compared {
    /// From 1.
    pub number: u64,
    pub subject: Option<Blob>,
    pub old: Outcome,
    pub new: Outcome,
}

/// Whether it has other destinations, in whatever order, or another status.
pub fn goes_elsewhere(alloc: Global, mail: &Compared) -> Result<bool, Memory>
    ensures { IfOk result (λ moved. moved ≡ goes_elsewhere mail.now) }
{
    Ok(!comes_to_same(alloc, &mail.old, &mail.new)?)
}

fn comes_to_same(alloc: Global, first: &Outcome, second: &Outcome) -> Result<bool, Memory>
    ensures { IfOk result (λ same. same ≡ comes_to_same first.now second.now) }
{
    Ok(is_same(alloc, first.names(), second.names())? && first.status() == second.status())
}
