//! Why a step of a run gives nothing.

use proc_syntax::Stop;
use rel_base::NoMemory;

/// Why a step of a run gives nothing: memory ran out, or the run stops there.
#[derive(Drop)]
pub enum Halt {
    NoMemory,
    Stop(Stop),
}

impl From<NoMemory> for Halt {
    ghost use Rattle.std.specs.Prelude.{◌≡◌};
    ghost use Rattle.proc_eval.specs.declared.halt.Halt.TheVariants as halt;

    ghost from_gives = { λ _ e. e ≡ halt.NoMemory };

    fn from(_error: NoMemory) -> Halt {
        Halt::NoMemory
    }
}

impl From<Stop> for Halt {
    ghost use Rattle.std.specs.Prelude.{◌≡◌};
    ghost use Rattle.proc_eval.specs.declared.halt.Halt.TheVariants as halt;

    ghost from_gives = { λ why e. e ≡ halt.Stop why };

    fn from(why: Stop) -> Halt {
        Halt::Stop(why)
    }
}
