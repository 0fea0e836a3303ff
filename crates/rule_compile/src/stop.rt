// Why a line isn't read.
use crate::RuleKind;
use base_types::NoMemory;
use std::alloc::AllocError;

/// Out of memory, or the line is refused.
#[derive(Drop)]
pub(crate) enum Stop {
    OutOfMemory,
    Refused(RuleKind),
}

impl From<AllocError> for Stop {
    ghost use Rattle.std.specs.Prelude.{◌≡◌};
    ghost use Rattle.rule_compile.specs.declared.stop.Stop.TheVariants.{OutOfMemory};

    ghost from_gives = { λ _ e. e ≡ OutOfMemory };

    fn from(_: AllocError) -> Stop {
        Stop::OutOfMemory
    }
}

impl From<NoMemory> for Stop {
    ghost use Rattle.std.specs.Prelude.{◌≡◌};
    ghost use Rattle.rule_compile.specs.declared.stop.Stop.TheVariants.{OutOfMemory};

    ghost from_gives = { λ _ e. e ≡ OutOfMemory };

    fn from(_: NoMemory) -> Stop {
        Stop::OutOfMemory
    }
}
