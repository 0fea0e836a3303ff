// Entries, the trailer, and a whole pack.
ghost use Rattle.std.specs.Prelude.{◌≡◌, ◌+◌, ◌≤◌, [], length, All, IfOk};
ghost use Rattle.git_object.specs.Object.{FitOnePack, IsPackable, total_bytes};
ghost use Rattle.pktline_core.specs.Links.{IsLater, KeepsWriting};
ghost use Rattle.raw_pack.specs.Formats.{front};
ghost use Rattle.raw_pack.specs.Packs.{pack_entries, pack_entry, pack_front, trailer};
ghost use Rattle.raw_pack.specs.Reading.{AnswersLeft, Reads, ReadsFront, TellsFault, fault_at};

use crate::fault::PackFault;
use crate::head::{MAX_ENTRIES, MAX_SUM, read_entry_head, read_header};
use crate::input::take_bytes;
use git_object::{ObjFault, Object, ObjectList};
use pktline_core::{Source, TakeFault, take_all};
use sha1::Sha1;
use std::alloc::Global;

/// An entry: a head and a body, as an object. The bodies before have so many bytes together.
pub fn read_object<S: Source>(
    alloc: Global,
    source: &mut S,
    hasher: &mut Sha1,
    entry: u32,
    sum: u64,
) -> Result<Object, PackFault>
    requires { sum ≤ MAX_SUM }
    ensures reads { Reads (pack_entry entry sum) (S.state source.old) (S.state source.new) hasher.old hasher.new result }
    ensures small { IfOk result (λ object. sum + length object.body ≤ MAX_SUM) }
    ensures tells { TellsFault (S.state source.old) (S.state source.new) result }
    ensures writing { KeepsWriting (S.state source.old) (S.state source.new) }
    ensures later { IsLater (S.state source.old) (S.state source.new) }
{
    let head = read_entry_head(source, hasher, entry, sum)?;
    let mut body = vec![in alloc; 0; head.size as usize]?;
    take_bytes(source, hasher, &mut body, entry)?;
    match Object::from_body(alloc, head.kind, body) {
        Ok(object) => Ok(object),
        Err(fault) => Err(object_fault(entry, fault)),
    }
}

fn object_fault(entry: u32, fault: ObjFault) -> PackFault
    ensures { result ≡ fault_at entry fault }
{
    match fault {
        ObjFault::BadCommit(_) => PackFault::BadObject(entry),
        ObjFault::BadTree(_) => PackFault::BadObject(entry),
        ObjFault::BadTag(_) => PackFault::BadObject(entry),
        ObjFault::NoMemory => PackFault::NoMemory,
    }
}

/// So many entries.
pub fn read_entries<S: Source>(
    alloc: Global,
    source: &mut S,
    hasher: &mut Sha1,
    count: u32,
) -> Result<ObjectList, PackFault>
    ensures reads { Reads (pack_entries count 0 0 []) (S.state source.old) (S.state source.new) hasher.old hasher.new result }
    ensures all { IfOk result (λ objects. length objects ≡ count) }
    ensures light { IfOk result (λ objects. total_bytes objects ≤ MAX_SUM) }
    ensures formed { IfOk result (All IsPackable) }
    ensures tells { TellsFault (S.state source.old) (S.state source.new) result }
    ensures writing { KeepsWriting (S.state source.old) (S.state source.new) }
    ensures later { IsLater (S.state source.old) (S.state source.new) }
{
    let mut objects = ObjectList::new(alloc);
    let mut sum = 0;
    for entry in 0..count {
        let object = read_object(alloc, source, hasher, entry, sum)?;
        sum += object.body().len() as u64;
        objects.push(object)?;
    }
    Ok(objects)
}

/// The trailer of a pack of so many entries, against the SHA-1 of what came before.
pub fn read_trailer<S: Source>(
    source: &mut S,
    computed: [u8; 20],
    count: u32,
) -> Result<(), PackFault>
    ensures reads { ReadsFront (front (trailer computed count)) (S.state source.old) (S.state source.new) result }
    ensures tells { TellsFault (S.state source.old) (S.state source.new) result }
    ensures writing { KeepsWriting (S.state source.old) (S.state source.new) }
    ensures later { IsLater (S.state source.old) (S.state source.new) }
{
    let mut read = [0; 20];
    match take_all(source, &mut read) {
        Ok(()) => {}
        Err(TakeFault::Ended) => return Err(PackFault::Truncated(count)),
        Err(TakeFault::Failed) => return Err(PackFault::ReadFault),
    }
    if read.as_slice() == computed.as_slice() {
        return Ok(());
    }
    Err(PackFault::TrailerDiffers { read, computed })
}

/// The objects of the pack that stands at the front of the source, in order. Nothing behind the trailer is
/// taken.
pub fn read_pack<S: Source>(alloc: Global, source: &mut S) -> Result<ObjectList, PackFault>
    ensures reads { ReadsFront pack_front (S.state source.old) (S.state source.new) result }
    ensures fit { IfOk result FitOnePack }
    ensures told { AnswersLeft pack_front ((S.state source.old).left) ((S.state source.new).left) result }
    ensures tells { TellsFault (S.state source.old) (S.state source.new) result }
    ensures writing { KeepsWriting (S.state source.old) (S.state source.new) }
    ensures later { IsLater (S.state source.old) (S.state source.new) }
{
    let mut hasher = Sha1::new();
    let count = read_header(source, &mut hasher)?;
    let objects = read_entries(alloc, source, &mut hasher, count)?;
    match read_trailer(source, hasher.finalize(), count) {
        Ok(()) => Ok(objects),
        Err(fault) => Err(fault),
    }
}
