// How a session ends.
ghost use Rattle.std.specs.Prelude.{◌≡◌, Some};
ghost use Rattle.session_core.specs.End.{end_number, end_text};

use base_types::NoMemory;
use git_object::ObjectId;
use pktline_core::WriteFault;
use raw_pack::PackFault;
use std::alloc::AllocError;
use std::error::Error;
use std::fmt;

/// How a session ends.
#[derive(Clone, Copy, Debug, PartialEq, Eq)]
pub enum SessionEnd {
    /// The input was read up to the flush that takes the place of commands or wants, up to the trailer of a
    /// push's pack or, where no pack is due, the flush behind the commands, up to a fetch's `done`, or up to
    /// the end of the one packet of `perms` or `info`.
    Served,
    /// The rules don't allow the opening.
    Denied,
    /// There is no such repository, and the user may not make one.
    NoRepo,
    /// The first packet has a user's name, and asks for nothing that there is.
    BadCommand,
    /// The first word of the first packet is no user's name.
    BadUser,
    /// This is the first thing that was wanted and isn't advertised.
    NotOurRef(ObjectId),
    /// The packet at this offset, from the session's first byte on, leaves the form.
    Malformed(u64),
    /// There are more commands than a push may have, or more wants, or haves and flushes, than a fetch may;
    /// of them so many were counted.
    TooLong(u64),
    /// The input ended before the session did.
    Truncated,
    /// A read of the link failed.
    ReadFault,
    /// A write of the link failed.
    WriteFault,
    NoMemory,
    /// The pack was refused, and so nothing was pushed.
    BadPack(PackFault),
}

impl SessionEnd {
    /// The number by which other programs know the end. A variant with a field can't bear it itself.
    pub fn number(self) -> u8
        ensures { result ≡ end_number self }
    {
        match self {
            SessionEnd::Served => 1,
            SessionEnd::Denied => 2,
            SessionEnd::NoRepo => 3,
            SessionEnd::BadCommand => 4,
            SessionEnd::BadUser => 5,
            SessionEnd::NotOurRef(_) => 6,
            SessionEnd::Malformed(_) => 7,
            SessionEnd::TooLong(_) => 8,
            SessionEnd::Truncated => 9,
            SessionEnd::ReadFault => 10,
            SessionEnd::WriteFault => 11,
            SessionEnd::NoMemory => 12,
            SessionEnd::BadPack(_) => 13,
        }
    }
}

impl fmt::Display for SessionEnd {
    ghost output = { λ end. Some (end_text end) };

    fn fmt<W: fmt::Write>(&self, f: &mut fmt::Formatter<W>) -> fmt::Result {
        match self {
            SessionEnd::Served => write!(f, "served"),
            SessionEnd::Denied => write!(f, "denied"),
            SessionEnd::NoRepo => write!(f, "no such repository"),
            SessionEnd::BadCommand => write!(f, "bad command"),
            SessionEnd::BadUser => write!(f, "bad user"),
            SessionEnd::NotOurRef(_) => write!(f, "not our ref"),
            SessionEnd::Malformed(offset) => write!(f, "malformed packet at {offset}"),
            SessionEnd::TooLong(count) => write!(f, "too many packets: {count}"),
            SessionEnd::Truncated => write!(f, "the input ended"),
            SessionEnd::ReadFault => write!(f, "read failed"),
            SessionEnd::WriteFault => write!(f, "write failed"),
            SessionEnd::NoMemory => write!(f, "out of memory"),
            SessionEnd::BadPack(fault) => write!(f, "bad pack: {fault}"),
        }
    }
}

impl Error for SessionEnd {}

impl From<NoMemory> for SessionEnd {
    ghost use Rattle.session_core.specs.declared.end.SessionEnd.TheVariants as end;

    ghost from_gives = { λ _ e. e ≡ end.NoMemory };

    fn from(_error: NoMemory) -> SessionEnd {
        SessionEnd::NoMemory
    }
}

impl From<AllocError> for SessionEnd {
    ghost use Rattle.session_core.specs.declared.end.SessionEnd.TheVariants as end;

    ghost from_gives = { λ _ e. e ≡ end.NoMemory };

    fn from(_error: AllocError) -> SessionEnd {
        SessionEnd::NoMemory
    }
}

impl From<WriteFault> for SessionEnd {
    ghost use Rattle.session_core.specs.Packets.{end_of_write};

    ghost from_gives = { λ fault end. end ≡ end_of_write fault };

    fn from(fault: WriteFault) -> SessionEnd {
        match fault {
            WriteFault::Failed => SessionEnd::WriteFault,
            WriteFault::NoMemory => SessionEnd::NoMemory,
        }
    }
}
