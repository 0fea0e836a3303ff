// What packets are read into.
ghost use Rattle.std.specs.Prelude.{◌≡◌, IfOk, false};

use pktline_core::{NoMemory, PktReader};
use std::alloc::Global;

/// What links that are served one after the other read their packets into. The first that reads packets takes
/// the memory for it, 65,516 bytes, and leaves it to those behind it. What is read and written doesn't depend
/// on the links before, with one exception: who finds a buffer can't run out of memory for it.
#[derive(Drop)]
pub struct PacketBuffer {
    // None while a link is read, and until there was memory for one.
    reader: Option<PktReader>,
}

impl PacketBuffer {
    /// A buffer that no link has used. It takes no memory.
    pub fn new() -> PacketBuffer {
        PacketBuffer { reader: None }
    }

    /// A reader at the beginning of an input.
    pub fn take_reader(&mut self, alloc: Global) -> Result<PktReader, NoMemory>
        ensures offset { IfOk result (λ reader. reader.offset ≡ 0) }
        ensures failed { IfOk result (λ reader. reader.failed ≡ false) }
    {
        let Some(mut reader) = self.reader.take() else {
            return PktReader::new(alloc);
        };
        reader.restart();
        Ok(reader)
    }

    /// Takes a reader back.
    pub fn put_back(&mut self, reader: PktReader) {
        self.reader = Some(reader);
    }
}
