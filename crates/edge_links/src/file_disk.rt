// A file of the system as a disk.
ghost use Rattle.std.specs.Prelude.{◌≡◌, ◌<◌, ◌≤◌, ◌^◌, IfOk, false};
ghost use Rattle.base_types.specs.Counts.{one_more};
ghost use Rattle.edge_links.specs.FileDisks.{untold_state};

use record_file::{Disk, DiskFault};
use std::fs::{File, Files, OpenOptions};
use std::io;
use std::os::unix::fs::FileExt;
use std::path::Path;

// A file has fewer bytes than 2^63.
const MAX_BYTES: u64 = (1 << 63) - 1;

/// A file of the system as a disk. It tells its length and its failed calls, and nothing of its bytes.
///
/// While it is open the file is locked, so that no other `FileDisk` has it, in this process or in another. A
/// call that a signal interrupts is made again; each other error is a fault. A write that failed may have
/// been made in part.
#[derive(Drop)]
pub struct FileDisk {
    file: Option<File>,
    size: u64,
    faults: u64,
    ghost size_below: { size < 2 ^ 63 },
}

impl FileDisk {
    /// The file at a path, which is made where it isn't there. Its folder is synced too, so that a crash
    /// can't take the file's name away.
    ///
    /// An error is the system's; that another program has the file open is of the kind `WouldBlock`.
    pub fn open<R: Files<File = File>>(files: &R, path: &str) -> io::Result<FileDisk>
        ensures { IfOk result (λ disk. (⟦<FileDisk as Disk>⟧.state disk).disk_faults ≡ 0) }
    {
        let file = OpenOptions::new()
            .read(true)
            .write(true)
            .create(true)
            .open(files, path)?;
        file.try_lock()?;
        sync_folder(files, path)?;
        let size = file.metadata()?.len();
        if size > MAX_BYTES {
            return Err(io::Error::from(io::ErrorKind::FileTooLarge));
        }
        Ok(FileDisk {
            file: Some(file),
            size,
            faults: 0,
        })
    }

    /// A disk each of whose calls fails, for where a file can't be opened.
    pub fn missing() -> FileDisk
        ensures { ⟦<FileDisk as Disk>⟧.state result ≡ untold_state 0 0 }
    {
        FileDisk {
            file: None,
            size: 0,
            faults: 0,
        }
    }

    // Counts a fault, and tells it.
    fn fail(&mut self) -> DiskFault
        ensures faults { self.new.faults ≡ one_more self.old.faults }
        ensures rises { self.old.faults ≤ self.new.faults }
        ensures size { self.new.size ≡ self.old.size }
    {
        self.faults = self.faults.saturating_add(1);
        DiskFault
    }
}

// Syncs the folder of a path.
fn sync_folder<R: Files<File = File>>(files: &R, path: &str) -> io::Result<()> {
    let folder = match Path::new(path).parent() {
        Some(folder) if !folder.as_str().is_empty() => folder.as_str(),
        _ => ".",
    };
    File::open(files, folder)?.sync_all()
}

impl Disk for FileDisk {
    ghost is_modeled = { false };

    ghost state = { λ d. untold_state d.size d.faults };

    fn len(&mut self) -> Result<u64, DiskFault> {
        if self.file.is_none() {
            return Err(self.fail());
        }
        Ok(self.size)
    }

    fn read(&mut self, at: u64, room: &mut [u8]) -> Result<(), DiskFault> {
        if let Some(file) = &self.file {
            if file.read_exact_at(room, at).is_ok() {
                return Ok(());
            }
        }
        Err(self.fail())
    }

    fn write_at(&mut self, at: u64, piece: &[u8]) -> Result<(), DiskFault> {
        let end = at.saturating_add(piece.len() as u64);
        if let Some(file) = &self.file {
            if end <= MAX_BYTES && file.write_all_at(piece, at).is_ok() {
                self.size = self.size.max(end);
                return Ok(());
            }
        }
        Err(self.fail())
    }

    fn cut(&mut self, len: u64) -> Result<(), DiskFault> {
        if let Some(file) = &self.file {
            if file.set_len(len).is_ok() {
                self.size = len;
                return Ok(());
            }
        }
        Err(self.fail())
    }

    fn sync(&mut self) -> Result<(), DiskFault> {
        if let Some(file) = &self.file {
            if file.sync_all().is_ok() {
                return Ok(());
            }
        }
        Err(self.fail())
    }

    ghost size_below = { λ d. d.size_below };

    ghost size_told = { λ d told. absurd cc };

    ghost content_may_stay = { λ d told. absurd cc };
}
