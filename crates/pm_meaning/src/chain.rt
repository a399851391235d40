//! What came of the recipes before: the flags A, a, E and e (procmailrc(5), "Recipe format").
ghost use Rattle.std.specs.Prelude.{◌≡◌};
ghost use Rattle.pm_meaning.specs.Chains.{is_admitted, with_success};
ghost use Rattle.pm_meaning.specs.Chains;

use pm_recipe::Flags;

/// What the flags A, a, E and e ask about: whether the last recipe without A or a matched, whether a recipe of the
/// chain of E was executed, and whether the last recipe was executed and succeeded, or was executed and failed.
#[derive(Clone, Copy)]
pub struct Chain {
    pub base: bool,
    pub ran: bool,
    pub ok: bool,
    pub failed: bool,
}

/// The chain of a first recipe, of an rcfile or of a block.
pub fn new_chain() -> Chain
    ensures { result ≡ Chains.new_chain }
{
    Chain {
        base: false,
        ran: false,
        ok: false,
        failed: false,
    }
}

/// Whether a recipe of these flags may be matched.
pub fn admits(flags: &Flags, chain: &Chain) -> bool
    ensures { result ≡ is_admitted flags.now chain.now }
{
    (!(flags.and_chain || flags.and_ok) || chain.base)
        && (!flags.and_ok || chain.ok)
        && (!flags.or_else || !chain.ran)
        && (!flags.on_error || chain.failed)
}

/// The chain after a recipe of these flags.
pub fn after(flags: &Flags, chain: &Chain, matched: bool, executed: bool, succeeded: bool) -> Chain
    ensures { result ≡ Chains.after flags.now chain.now matched executed succeeded }
{
    let tied = flags.and_chain || flags.and_ok;
    Chain {
        base: if tied { chain.base } else { matched },
        ran: executed || (flags.or_else && chain.ran),
        ok: executed && succeeded,
        failed: executed && !succeeded,
    }
}

/// The chain once its last recipe, which was executed, has succeeded.
pub fn succeed(chain: &Chain) -> Chain
    ensures { result ≡ with_success chain.now }
{
    Chain {
        base: chain.base,
        ran: chain.ran,
        ok: true,
        failed: false,
    }
}
