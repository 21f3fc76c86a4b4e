//! Why a walk through a rule stops.
ghost use Rattle.std.specs.Prelude.{◌≡◌};

use sk_base::NoMemory;
use sk_def::HookId;
use sk_lattice::{AbsTuple, NumDom};

/// Why a walk that is answered from a table has no outputs: the first call, in text order, that no triple lies above, or
/// want of memory.
#[derive(Drop)]
pub enum FromStop<D: NumDom> {
    Uncovered {
        hook: HookId,
        point: u16,
        args: AbsTuple<D>,
    },
    NoMemory,
}

/// Why the interpretation stops: the first uncovered call, a bone that doesn't fit, which no well-sorted definition has,
/// or want of memory.
#[derive(Drop)]
pub enum Stop<D: NumDom> {
    Uncovered {
        hook: HookId,
        point: u16,
        args: AbsTuple<D>,
    },
    Ill,
    NoMemory,
}

impl<D: NumDom> From<NoMemory> for Stop<D> {
    ghost use Rattle.sk_abswalk.specs.declared.stop.Stop.TheVariants as stop;

    ghost from_gives = { λ _ answer. answer ≡ stop.NoMemory };

    fn from(_refused: NoMemory) -> Stop<D> {
        Stop::NoMemory
    }
}
