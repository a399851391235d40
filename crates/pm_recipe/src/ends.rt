//! What is told where a text ends inside blocks.
ghost use Rattle.std.specs.Prelude.{◌≡◌, ◌+◌, IfOk, [], length};
ghost use Rattle.pm_recipe.specs.declared.fronts.Kind.TheVariants as Kind;
ghost use Rattle.pm_recipe.specs.Builder.{Stands, built_of, whole};
ghost use Rattle.pm_recipe.specs.Ends.{Blocks, blocks_after, missed, no_blocks};
ghost use Rattle.pm_recipe.specs.Spans.{situation_after};

use crate::building::Builder;
use crate::fronts::{Kind, Situation};
use pm_bytes::Memory;

/// The line of the last colon line, that of the outermost recipe whose block is open, and whether a block that would be
/// nested too deep ended the reading.
#[derive(Clone, Copy)]
pub struct Unended {
    pub colon: u64,
    pub outermost: u64,
    pub stopped: bool,
}

pub fn none_unended() -> Unended
    ensures { Stands result 0 no_blocks }
{
    Unended {
        colon: 0,
        outermost: 0,
        stopped: false,
    }
}

/// After a span of this kind, which begins on this line in this situation.
pub fn unended_after(kind: Kind, line: u64, situation: Situation, unended: Unended) -> Unended
    ensures { (blocks : Blocks) → Stands unended situation.depth blocks
        → Stands result (situation_after kind situation).depth (blocks_after kind line blocks) }
{
    let Unended {
        colon,
        outermost,
        stopped,
    } = unended;
    match kind {
        Kind::Colon => Unended {
            colon: line,
            outermost,
            stopped,
        },
        Kind::Open => opened(situation.depth, unended),
        Kind::TooDeep => Unended {
            colon,
            outermost,
            stopped: true,
        },
        Kind::Close => unended,
        _ => unended,
    }
}

// A block begins in so many others.
fn opened(depth: usize, unended: Unended) -> Unended
    ensures { (blocks : Blocks) → Stands unended depth blocks
        → Stands result (depth + 1) (blocks_after Kind.Open 0 blocks) }
{
    if depth > 0 {
        return unended;
    }
    Unended {
        colon: unended.colon,
        outermost: unended.colon,
        stopped: unended.stopped,
    }
}

/// Tells that braces are missing, where so many blocks are open at the end of a text that was read whole.
pub fn tell_missing(builder: &mut Builder, depth: usize, unended: Unended) -> Result<(), Memory>
    requires { length builder.old.levels.items ≡ 0 }
    ensures levels { IfOk result (λ _. length builder.new.levels.items ≡ 0) }
    ensures whole { IfOk result (λ _. (blocks : Blocks) → Stands unended depth blocks → whole (built_of builder.new) []
        ≡ whole (built_of builder.old) (missed blocks.lines blocks.stopped)) }
{
    if depth == 0 || unended.stopped {
        return Ok(());
    }
    builder.miss(unended.outermost)?;
    Ok(())
}
