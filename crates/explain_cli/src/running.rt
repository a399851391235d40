//! Runs of procmail over what is there, whose changes stay in memory. Programs are started where that is asked for.
ghost use Rattle.std.specs.Prelude.{◌≡◌};
ghost use Rattle.pm_host.specs.declared.answers.Child.{Child};

use explain_host::{Machine, OwnCode, lines_of};
use explain_mails::{Outcome, destination_names};
use explain_notes::Notes;
use explain_run::{Script, Stepping, next_start, started_after};
use pm_bytes::{Blob, Memory};
use pm_conds::{NoObserver, Observer};
use pm_host::Host;
use pm_journal::{Entry, Journal};
use pm_overlay::{Base, Given, Overlay, Void};
use pm_top::{MessageSource, procmail_observed};
use std::alloc::Global;

/// How many programs of a mail are started at most.
const MOST_STARTS: usize = 10_000;

/// What all runs share. Each begins with the files as they are on the disk.
#[derive(Drop)]
pub struct Runs {
    pub machine: Machine,
    pub given: Vec<Given>,
    /// Programs of conditions, backquotes and filters are started.
    pub starts: bool,
}

// What procmail is asked for: the machine, its words, and the mail.
#[derive(Clone, Copy)]
struct Asked<'a> {
    rt: &'a HostRuntime,
    words: &'a [String],
    mail: &'a Blob,
}

/// What one did, what was heard of its recipes, and which of its programs were started, by their places among them.
#[derive(Drop)]
pub struct Ran {
    pub journal: Journal,
    pub notes: Notes,
    pub status: u8,
    pub started: Vec<usize>,
}

impl Runs {
    /// Runs procmail by these words on a mail.
    pub fn run(&self, rt: &HostRuntime, words: &[String], mail: &Blob) -> Result<Ran, Memory> {
        let asked = Asked { rt, words, mail };
        let first = self.run_once(asked)?;
        if self.starts {
            self.start_programs(asked, first)
        } else {
            Ok(first)
        }
    }

    // The run in which no program is started.
    fn run_once(&self, asked: Asked<'_>) -> Result<Ran, Memory> {
        let mut notes = Notes::new(asked.rt.alloc());
        let (journal, status) = self.observe(asked, None, &mut notes)?;
        Ok(Ran {
            journal,
            notes,
            status,
            started: Vec::new(asked.rt.alloc()),
        })
    }

    /// What a mail comes to by these words.
    pub fn outcome(
        &self,
        rt: &HostRuntime,
        words: &[String],
        mail: &Blob,
    ) -> Result<Outcome, Memory> {
        if self.starts {
            let ran = self.run(rt, words, mail)?;
            outcome_of(rt.alloc(), ran.journal.entries(), ran.status)
        } else {
            self.outcome_once(Asked { rt, words, mail })
        }
    }

    // That of the run in which no program is started.
    fn outcome_once(&self, asked: Asked<'_>) -> Result<Outcome, Memory> {
        let (journal, status) = self.observe(asked, None, &mut NoObserver)?;
        outcome_of(asked.rt.alloc(), journal.entries(), status)
    }

    fn start_programs(&self, asked: Asked<'_>, first: Ran) -> Result<Ran, Memory> {
        let mut ran = first;
        self.start_each(asked, &mut ran)?;
        Ok(ran)
    }

    // The run is repeated, each time with one program more that is started, until none is left.
    fn start_each(&self, asked: Asked<'_>, ran: &mut Ran) -> Result<(), Memory> {
        let lines = lines_of(asked.rt.alloc(), self.given.as_slice())?;
        let mut last = None;
        for _ in 0..MOST_STARTS {
            last = self.start_next(asked, lines.as_slice(), last, ran)?;
            if last.is_none() {
                break;
            }
        }
        Ok(())
    }

    // Starts the first program after the place, and answers where it is. These lines are answered without a start.
    fn start_next(
        &self,
        asked: Asked<'_>,
        lines: &[Blob],
        last: Option<usize>,
        ran: &mut Ran,
    ) -> Result<Option<usize>, Memory> {
        let entries = ran.journal.entries();
        let next = next_start(asked.rt.alloc(), lines, entries, ran.notes.as_slice(), last)?;
        if let Some(place) = next {
            *ran = self.start_program(asked, ran, place)?;
        }
        Ok(next)
    }

    // The same run once more, in which the program at this place is started.
    fn start_program(&self, asked: Asked<'_>, before: &Ran, place: usize) -> Result<Ran, Memory> {
        let entries = before.journal.entries();
        let started = before.started.as_slice();
        let script = Script {
            entries,
            started,
            next: Some(place),
        };
        let mut notes = Notes::new(asked.rt.alloc());
        let (journal, status) = self.observe(asked, Some(script), &mut notes)?;
        let started = started_after(asked.rt.alloc(), entries, journal.entries(), started, place)?;
        Ok(Ran {
            journal,
            notes,
            status,
            started,
        })
    }

    // The entries and the status of a run, which the observer follows. Programs are started by the script, or none.
    fn observe<N: Observer>(
        &self,
        asked: Asked<'_>,
        script: Option<Script<'_>>,
        observer: &mut N,
    ) -> Result<(Journal, u8), Memory> {
        let base = self.machine.base(asked.rt)?;
        self.observe_from(asked, base, script, observer)
    }

    // Over files of any kind, since a proof that sees all parts of the real host takes three times as long.
    fn observe_from<B: Base + Drop, N: Observer>(
        &self,
        asked: Asked<'_>,
        base: B,
        script: Option<Script<'_>>,
        observer: &mut N,
    ) -> Result<(Journal, u8), Memory> {
        let given = copies(asked.rt.alloc(), self.given.as_slice())?;
        let lines = lines_of(asked.rt.alloc(), self.given.as_slice())?;
        let overlay = Overlay::new(asked.rt.alloc(), base, given);
        let host = OwnCode::new(asked.rt.alloc(), overlay, lines)?;
        self.observe_by(asked, host, script, observer)
    }

    fn observe_by<H: Host + Drop, N: Observer>(
        &self,
        asked: Asked<'_>,
        below: H,
        script: Option<Script<'_>>,
        observer: &mut N,
    ) -> Result<(Journal, u8), Memory>
        requires { (H.told below).child ≡ Child.NoChild }
    {
        match script {
            Some(script) => self.observe_started(asked, below, script, observer),
            None => {
                let mut host = below;
                self.observe_over(asked, &mut host, observer)
            }
        }
    }

    fn observe_started<H: Host + Drop, N: Observer>(
        &self,
        asked: Asked<'_>,
        below: H,
        script: Script<'_>,
        observer: &mut N,
    ) -> Result<(Journal, u8), Memory>
        requires { (H.told below).child ≡ Child.NoChild }
    {
        let real = self.machine.host(asked.rt)?;
        self.observe_stepping(asked, below, real, script, observer)
    }

    fn observe_stepping<H: Host + Drop, R: Host + Drop, N: Observer>(
        &self,
        asked: Asked<'_>,
        below: H,
        real: R,
        script: Script<'_>,
        observer: &mut N,
    ) -> Result<(Journal, u8), Memory>
        requires below { (H.told below).child ≡ Child.NoChild }
        requires real { (R.told real).child ≡ Child.NoChild }
    {
        let mut host = Stepping::new(asked.rt.alloc(), below, real, script);
        let seen = self.observe_over(asked, &mut host, observer);
        drop(host);
        seen
    }

    fn observe_over<H: Host, N: Observer>(
        &self,
        asked: Asked<'_>,
        host: &mut H,
        observer: &mut N,
    ) -> Result<(Journal, u8), Memory>
        requires { (H.told host.old).child ≡ Child.NoChild }
    {
        let mut source = MessageSource::new(asked.mail.as_slice().to_vec(asked.rt.alloc())?);
        let mut journal = Journal::new(asked.rt.alloc());
        let status = procmail_observed(
            asked.rt.alloc(),
            asked.words,
            self.machine.env(),
            &mut source,
            host,
            &mut Void::new(),
            &mut Void::new(),
            &mut journal,
            observer,
        );
        Ok((journal, status))
    }
}

fn outcome_of(alloc: Global, entries: &[Entry], status: u8) -> Result<Outcome, Memory> {
    let names = destination_names(alloc, entries)?;
    Ok(Outcome::new(names, status))
}

fn copies(alloc: Global, given: &[Given]) -> Result<Vec<Given>, Memory> {
    let mut copies = Vec::new(alloc);
    for answer in given {
        copies.push(copy(alloc, answer)?)?;
    }
    Ok(copies)
}

fn copy(alloc: Global, given: &Given) -> Result<Given, Memory> {
    let output = match &given.output {
        Some(output) => Some(output.copy(alloc)?),
        None => None,
    };
    Ok(Given {
        line: given.line.copy(alloc)?,
        code: given.code,
        output,
    })
}
