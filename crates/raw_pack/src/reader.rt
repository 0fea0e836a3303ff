// A pack, entry by entry.
ghost use Rattle.std.specs.Prelude.{◌≡◌, ◌≤◌, ◌<◌};
ghost use Rattle.std.specs.Option.{option_map};
ghost use Rattle.std.specs.Borrow.{sem};
ghost use Rattle.std.specs.Io.BufRead.{Rests};
ghost use Rattle.pktline_core.specs.Links.{IsLater, KeepsWriting};
ghost use Rattle.raw_pack.specs.Reading.{TellsFault};
ghost use Rattle.raw_pack.specs.Readers.{Begins, GoesOn, HasCause, NextEntry, Repeats, content_of, entry_answer, kept_answer};
ghost use Rattle.raw_pack.specs.contracts.reader.PackReader.{the_row};

use crate::entry::PackEntry;
use crate::fault::PackFault;
use crate::head::{MAX_SUM, read_header};
use crate::reading::{read_object, read_trailer};
use git_object::Object;
use pktline_core::Source;
use sha1::Sha1;
use std::alloc::Global;
use std::marker::Model;
use std::mem;

/// A reader of one pack, which keeps the last object.
#[derive(Drop)]
pub struct PackReader {
    alloc: Global,
    hasher: Sha1,
    count: u32,
    read: u32,
    sum: u64,
    last: Option<Object>,
    end: Option<Result<(), PackFault>>,
}

impl Model for PackReader {
    ghost use Rattle.std.specs.Prelude.{◌≤◌};
    ghost use Rattle.raw_pack.specs.Readers.{ReaderState};

    ghost Value = { ReaderState };

    ghost view = { λ r. record { hasher = r.hasher; count = r.count; read = r.read; sum = r.sum; last = r.last; end = r.end } };

    ghost invariant = { λ r. (r.read ≤ r.count) × (r.sum ≤ 268435456) };
}

impl PackReader {
    /// Reads the header of a pack. Each entry is read by a call of `next_entry` on the same source.
    pub fn begin<S: Source>(alloc: Global, source: &mut S) -> Result<PackReader, PackFault>
        ensures begins { Begins (S.state source.old) (S.state source.new) result }
        ensures tells { TellsFault (S.state source.old) (S.state source.new) result }
        ensures writing { KeepsWriting (S.state source.old) (S.state source.new) }
        ensures later { IsLater (S.state source.old) (S.state source.new) }
    {
        let mut hasher = Sha1::new();
        let count = read_header(source, &mut hasher)?;
        Ok(PackReader {
            alloc,
            hasher,
            count,
            read: 0,
            sum: 0,
            last: None,
            end: None,
        })
    }

    /// The next entry, which is lent until the next call, or `None` once the trailer agreed.
    pub fn next_entry<S: Source>(
        &mut self,
        source: &mut S,
    ) -> Result<Option<PackEntry<'_>>, PackFault>
        ensures* reads { sem 𝓛 (Rests the_row self.entry (λ new. NextEntry source.old source.new (S.state source.old) (S.state source.new) self.old new (entry_answer result))) }
        ensures caused { HasCause (S.state source.old) (S.state source.new) self.old result }
        ensures tells { TellsFault (S.state source.old) (S.state source.new) result }
        ensures writing { KeepsWriting (S.state source.old) (S.state source.new) }
        ensures later { IsLater (S.state source.old) (S.state source.new) }
    {
        match self.advance(source) {
            Ok(true) => Ok(self.entry()),
            Ok(false) => Ok(None),
            Err(fault) => Err(fault),
        }
    }

    // Reads one more object and keeps it, or the trailer.
    fn advance<S: Source>(&mut self, source: &mut S) -> Result<bool, PackFault>
        ensures goes_on { GoesOn (S.state source.old) (S.state source.new) self.old self.new (kept_answer self.new result) }
        ensures repeats { Repeats source.old source.new self.old self.new (kept_answer self.new result) }
        ensures caused { HasCause (S.state source.old) (S.state source.new) self.old result }
        ensures tells { TellsFault (S.state source.old) (S.state source.new) result }
        ensures writing { KeepsWriting (S.state source.old) (S.state source.new) }
        ensures later { IsLater (S.state source.old) (S.state source.new) }
    {
        if let Some(end) = self.end {
            match end {
                Ok(()) => return Ok(false),
                Err(fault) => return Err(fault),
            }
        }
        if self.read < self.count {
            return self.read_next(source);
        }
        self.check_trailer(source)
    }

    fn read_next<S: Source>(&mut self, source: &mut S) -> Result<bool, PackFault>
        requires more { self.old.read < self.old.count }
        requires goes { self.old.end ≡ None }
        ensures goes_on { GoesOn (S.state source.old) (S.state source.new) self.old self.new (kept_answer self.new result) }
        ensures caused { HasCause (S.state source.old) (S.state source.new) self.old result }
        ensures tells { TellsFault (S.state source.old) (S.state source.new) result }
        ensures writing { KeepsWriting (S.state source.old) (S.state source.new) }
        ensures later { IsLater (S.state source.old) (S.state source.new) }
    {
        match read_object(self.alloc, source, &mut self.hasher, self.read, self.sum) {
            Ok(object) => {
                self.read += 1;
                self.sum += object.body().len() as u64;
                self.last = Some(object);
                Ok(true)
            }
            Err(fault) => {
                self.end = Some(Err(fault));
                Err(fault)
            }
        }
    }

    fn check_trailer<S: Source>(&mut self, source: &mut S) -> Result<bool, PackFault>
        requires all { self.old.count ≤ self.old.read }
        requires goes { self.old.end ≡ None }
        ensures goes_on { GoesOn (S.state source.old) (S.state source.new) self.old self.new (kept_answer self.new result) }
        ensures caused { HasCause (S.state source.old) (S.state source.new) self.old result }
        ensures tells { TellsFault (S.state source.old) (S.state source.new) result }
        ensures writing { KeepsWriting (S.state source.old) (S.state source.new) }
        ensures later { IsLater (S.state source.old) (S.state source.new) }
    {
        let hasher = mem::replace(&mut self.hasher, Sha1::new());
        match read_trailer(source, hasher.finalize(), self.count) {
            Ok(()) => {
                self.end = Some(Ok(()));
                Ok(false)
            }
            Err(fault) => {
                self.end = Some(Err(fault));
                Err(fault)
            }
        }
    }

    fn entry(&self) -> Option<PackEntry<'_>>
        ensures { option_map content_of result ≡ self.now.last }
    {
        match &self.last {
            Some(object) => Some(PackEntry {
                kind: object.kind(),
                body: object.body(),
            }),
            None => None,
        }
    }
}
