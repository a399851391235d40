//! What the statements of an rcfile do to variables and directories, in their order.
use crate::programs::program_of;
use pm_bytes::Memory;
use pm_recipe::{Flags, Kind, RcRefused, Span, cut_rc, read_flags};
use std::alloc::Global;

/// One of them. `first` is the place of its first byte in the text, from 0.
#[derive(Drop)]
pub enum Step {
    Assign {
        name: Vec<u8>,
        value: Vec<u8>,
        line: u64,
        first: usize,
    },
    /// The variable is unset, or gets a value that isn't known.
    Forget {
        name: Vec<u8>,
    },
    /// A program is started.
    Start {
        program: Vec<u8>,
        line: u64,
        first: usize,
    },
    /// A block begins, which is executed always or only with some mails.
    Open {
        always: bool,
    },
    Close,
}

// What is known of the recipe that has begun.
#[derive(Clone, Copy)]
struct Begun {
    always: bool,
}

/// The steps of a text.
pub fn steps_of(alloc: Global, text: &[u8]) -> Result<Vec<Step>, RcRefused> {
    let spans = cut_rc(alloc, text)?;
    Ok(steps_in(alloc, spans.as_slice())?)
}

fn steps_in(alloc: Global, spans: &[Span<'_>]) -> Result<Vec<Step>, Memory> {
    let mut steps = Vec::new(alloc);
    let mut begun = Begun { always: true };
    for span in spans {
        add_steps(alloc, span, begun, &mut steps)?;
        begun = begun_after(span, begun);
    }
    Ok(steps)
}

fn add_steps(
    alloc: Global,
    span: &Span<'_>,
    begun: Begun,
    steps: &mut Vec<Step>,
) -> Result<(), Memory> {
    if let Some(step) = start_of(alloc, span)? {
        push(steps, step)?;
    }
    match step_of(alloc, span, begun)? {
        Some(step) => push(steps, step),
        None => Ok(()),
    }
}

fn push(steps: &mut Vec<Step>, step: Step) -> Result<(), Memory> {
    steps.push(step)?;
    Ok(())
}

fn begun_after(span: &Span<'_>, begun: Begun) -> Begun {
    match span.kind {
        Kind::Colon => Begun {
            always: runs_always(read_flags(span.text)),
        },
        Kind::Condition => Begun { always: false },
        _ => begun,
    }
}

// A recipe with none of these flags is executed whatever came before it, and in this process.
fn runs_always(flags: Flags) -> bool {
    !(flags.and_chain || flags.and_ok || flags.or_else || flags.on_error || flags.copy)
}

fn step_of(alloc: Global, span: &Span<'_>, begun: Begun) -> Result<Option<Step>, Memory> {
    let step = match span.kind {
        Kind::Assign => Step::Assign {
            name: span.name.to_vec(alloc)?,
            value: span.text.to_vec(alloc)?,
            line: span.line,
            first: span.first,
        },
        Kind::Unset | Kind::Capture => Step::Forget {
            name: span.name.to_vec(alloc)?,
        },
        Kind::Open => Step::Open {
            always: begun.always,
        },
        Kind::Close => Step::Close,
        _ => return Ok(None),
    };
    Ok(Some(step))
}

fn start_of(alloc: Global, span: &Span<'_>) -> Result<Option<Step>, Memory> {
    if !matches!(span.kind, Kind::Pipe | Kind::Capture) {
        return Ok(None);
    }
    let Some(program) = program_of(span.text) else {
        return Ok(None);
    };
    Ok(Some(Step::Start {
        program: program.to_vec(alloc)?,
        line: span.line,
        first: span.first,
    }))
}
