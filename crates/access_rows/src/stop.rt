// Why the program ends early.
use access_check::NoMemory;
use std::alloc::AllocError;

#[derive(Drop)]
pub(crate) enum Stop {
    OutOfMemory,
    /// The input can't be read.
    NoInput,
    /// A line has none of the forms.
    NoForm,
}

impl From<NoMemory> for Stop {
    fn from(_: NoMemory) -> Stop {
        Stop::OutOfMemory
    }
}

impl From<AllocError> for Stop {
    fn from(_: AllocError) -> Stop {
        Stop::OutOfMemory
    }
}
