// Why bytes weren't read as a body.
ghost use Rattle.std.specs.Prelude.{◌≡◌};
ghost use Rattle.event_record.specs.declared.body_fault.BodyFault.TheVariants as fault;

use crate::NoMemory;

/// Why bytes weren't read as the body of an event.
#[derive(Clone, Copy, Debug, PartialEq, Eq)]
pub enum BodyFault {
    /// They are the body of no event.
    BadBody,
    NoMemory,
}

impl From<NoMemory> for BodyFault {
    ghost from_gives = { λ _ e. e ≡ fault.NoMemory };

    fn from(_error: NoMemory) -> BodyFault {
        BodyFault::NoMemory
    }
}
