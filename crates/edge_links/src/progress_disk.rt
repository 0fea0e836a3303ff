// A disk that says how far it is read.
ghost use Rattle.std.specs.Prelude.{◌≡◌};

use record_file::{Disk, DiskFault};
use std::rt::Clock;
use std::time::Instant;

// How many bytes a megabyte has, as it is said.
const MEGABYTE: u64 = 1_000_000;

/// A disk that says on standard error, once a second while it is read, how far that is. All calls are those
/// of the disk that it was made of.
#[derive(Drop)]
pub struct ProgressDisk<'a, R, Y: Disk> {
    rt: &'a R,
    disk: Y,
    // How many bytes there are to read.
    len: u64,
    // When it was said last; none where the clock failed.
    said: Option<Instant>,
}

impl<'a, R: Clock + Eprint, Y: Disk> ProgressDisk<'a, R, Y> {
    /// Of a file that has so many bytes as it is opened.
    pub fn new(rt: &'a R, disk: Y, len: u64) -> ProgressDisk<'a, R, Y>
        ensures { result.disk ≡ disk }
    {
        ProgressDisk {
            rt,
            disk,
            len,
            said: Instant::now(rt).ok(),
        }
    }

    // Says that it is read at a place, where nothing was said for a second.
    fn say(&mut self, at: u64)
        ensures { self.new.disk ≡ self.old.disk }
    {
        let Some(said) = self.said else {
            return;
        };
        let Ok(silent) = said.elapsed(self.rt) else {
            return;
        };
        if silent.as_secs() == 0 {
            return;
        }
        let read = at / MEGABYTE;
        let all = self.len / MEGABYTE;
        let _said = eprintln!(self.rt; "reading the journal: {read} of {all} MB");
        self.said = Instant::now(self.rt).ok();
    }
}

impl<'a, R: Clock + Eprint, Y: Disk> Disk for ProgressDisk<'a, R, Y> {
    ghost is_modeled = { Y.is_modeled };

    ghost state = { λ d. Y.state d.disk };

    fn len(&mut self) -> Result<u64, DiskFault> {
        self.disk.len()
    }

    fn read(&mut self, at: u64, room: &mut [u8]) -> Result<(), DiskFault> {
        self.say(at);
        self.disk.read(at, room)
    }

    fn write_at(&mut self, at: u64, piece: &[u8]) -> Result<(), DiskFault> {
        self.disk.write_at(at, piece)
    }

    fn cut(&mut self, len: u64) -> Result<(), DiskFault> {
        self.disk.cut(len)
    }

    fn sync(&mut self) -> Result<(), DiskFault> {
        self.disk.sync()
    }

    ghost size_below = { λ d. Y.size_below d.disk };

    ghost size_told = { λ d. Y.size_told d.disk };

    ghost content_may_stay = { λ d. Y.content_may_stay d.disk };
}
