//! What a span of an rcfile says, handed to the builder of its statements.
ghost use Rattle.std.specs.Prelude.{◌≡◌, ◌<◌, IfOk, length, IsSome};
ghost use Rattle.pm_recipe.specs.Tree as Act;
ghost use Rattle.pm_recipe.specs.Joins.{unjoined};
ghost use Rattle.pm_recipe.specs.Item.Item.{Does, States};
ghost use Rattle.pm_recipe.specs.Reads.{program_line, item_of};
ghost use Rattle.pm_recipe.specs.Steps.{Builds};

use crate::building::Builder;
use crate::fronts::Kind;
use crate::joins::without_joins;
use crate::places::past;
use crate::runs::Run;
use crate::tree::{Action, Statement};
use pm_bytes::{Blob, Memory};
use std::alloc::Global;

fn read_program(alloc: Global, text: &[u8]) -> Result<Blob, Memory>
    ensures { IfOk result (λ line. line ≡ program_line text.now) }
{
    let line = without_joins(alloc, text)?;
    Blob::from_slice(alloc, past(Run::Blanks, line.as_slice()))
}

fn assign(builder: &mut Builder, name: &[u8], value: &[u8]) -> Result<(), Memory>
    ensures { IfOk result (λ _. Builds builder.old builder.new (States (Act.Assign (unjoined name.now) value.now))) }
{
    let name = without_joins(builder.alloc, name)?;
    let value = Blob::from_slice(builder.alloc, value)?;
    builder.state(Statement::Assign { name, value })
}

fn unset(builder: &mut Builder, name: &[u8]) -> Result<(), Memory>
    ensures { IfOk result (λ _. Builds builder.old builder.new (States (Act.Unset (unjoined name.now)))) }
{
    let name = without_joins(builder.alloc, name)?;
    builder.state(Statement::Unset { name })
}

fn skip(builder: &mut Builder, line: u64, text: &[u8]) -> Result<(), Memory>
    ensures { IfOk result (λ _. Builds builder.old builder.new (States (Act.Defect line text.now))) }
{
    let text = Blob::from_slice(builder.alloc, text)?;
    builder.state(Statement::Defect { line, text })
}

fn mailbox(builder: &mut Builder, text: &[u8]) -> Result<(), Memory>
    ensures { IfOk result (λ _. Builds builder.old builder.new (Does (Act.Mailbox (unjoined text.now)))) }
{
    let text = without_joins(builder.alloc, text)?;
    builder.act(Action::Mailbox(text))
}

fn forward(builder: &mut Builder, text: &[u8]) -> Result<(), Memory>
    ensures { IfOk result (λ _. Builds builder.old builder.new (Does (Act.Forward (unjoined text.now)))) }
{
    let text = without_joins(builder.alloc, text)?;
    builder.act(Action::Forward(text))
}

fn pipe(builder: &mut Builder, text: &[u8]) -> Result<(), Memory>
    ensures { IfOk result (λ _. Builds builder.old builder.new (Does (Act.Pipe (program_line text.now)))) }
{
    let line = read_program(builder.alloc, text)?;
    builder.act(Action::Pipe(line))
}

fn capture(builder: &mut Builder, name: &[u8], text: &[u8]) -> Result<(), Memory>
    ensures { IfOk result (λ _. Builds builder.old builder.new
        (Does (Act.Capture (unjoined name.now) (program_line text.now)))) }
{
    let name = without_joins(builder.alloc, name)?;
    let line = read_program(builder.alloc, text)?;
    builder.act(Action::Capture { name, line })
}

/// The span that stands in front.
pub fn take_span(
    builder: &mut Builder,
    kind: Kind,
    line: u64,
    name: &[u8],
    text: &[u8],
) -> Result<(), Memory>
    requires begun { kind ≡ Kind.Open → IsSome builder.old.begun }
    requires block { kind ≡ Kind.Close → 0 < length builder.old.levels.items }
    ensures { IfOk result (λ _. Builds builder.old builder.new
        (item_of (record { kind = kind; line = line; name = name.now; text = text.now }) kind)) }
{
    match kind {
        Kind::Gap => Ok(()),
        Kind::Colon => builder.begin(line, text),
        Kind::Condition => builder.condition(text),
        Kind::Mailbox => mailbox(builder, text),
        Kind::Pipe => pipe(builder, text),
        Kind::Capture => capture(builder, name, text),
        Kind::Forward => forward(builder, text),
        Kind::WriteOut => builder.act(Action::WriteOut),
        Kind::Open => builder.open(),
        Kind::TooDeep => builder.fail(line, text),
        Kind::Close => builder.close(),
        Kind::Assign => assign(builder, name, text),
        Kind::Unset => unset(builder, name),
        Kind::Skipped => skip(builder, line, text),
    }
}
