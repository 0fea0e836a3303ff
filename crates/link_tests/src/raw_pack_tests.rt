// Values from outside: the trailers by `sha1sum`, of GNU coreutils, over what comes before them; the name by
// `git hash-object -t commit --stdin`, and the heads of blobs by `git pack-objects`, of Git 2.39.5.
ghost use Rattle.std.specs.Prelude.{◌<◌, ◌^◌, None, false, length};
ghost use Rattle.std.proofs.Common.{arith};
ghost use Rattle.pktline_core.specs.LinkState.{LinkState, Whole};

use git_object::{Kind, Object, ObjectList};
use pktline_core::{Endpoint, MemoryLink, Source, Taken, WriteFault};
use raw_pack::{PackEntry, PackFault, PackReader, read_pack, write_pack};
use ref_store::{Added, Repo};
use std::alloc::Global;
use std::process::Abort;

// A pack of 191 bytes: a commit of 156 bytes and the empty tree.
static SIGNED: &[u8] =
    b"PACK\0\0\0\x02\0\0\0\x02\x9c\x09tree 4b825dc642cb6eb9a060e54bf8d69288fbee4904\nauthor Carol <carol@example.com> 1700000000 +0000\ncommitter Carol <carol@example.com> 1700000000 +0000\n\nfirst\n\x20";

const TRAILER: [u8; 20] = [
    100, 229, 109, 182, 94, 64, 237, 22, 11, 59, 211, 64, 82, 90, 182, 30, 130, 105, 219, 219,
];

static TRAILER_BYTES: [u8; 20] = TRAILER;

static COMMIT_NAME: &str = "1c73cda3964d5dd51bdaad94efd235c910cf59de";

static EMPTY_PACK: &[u8] =
    b"PACK\0\0\0\x02\0\0\0\0\x02\x9d\x08\x82;\xd8\xa8\xea\xb5\x10\xadj\xc7\\\x82<\xfd>\xd3\x1e";

fn add(rt: &impl Abort, bytes: &mut Vec<u8>, more: &[u8]) {
    bytes.extend_from_slice(more).expect(rt, "memory for bytes");
}

// The pack.
fn signed_pack(rt: &impl Abort, alloc: Global) -> Vec<u8> {
    let mut whole = Vec::new(alloc);
    add(rt, &mut whole, SIGNED);
    add(rt, &mut whole, &TRAILER_BYTES);
    whole
}

// An input, with these bytes in place of as many at a place.
fn patched(rt: &impl Abort, alloc: Global, whole: &[u8], place: usize, patch: &[u8]) -> Vec<u8> {
    let behind = (place.min(192) + patch.len().min(192)).min(whole.len());
    let mut input = Vec::new(alloc);
    add(rt, &mut input, whole.split_at(place.min(whole.len())).0);
    add(rt, &mut input, patch);
    add(rt, &mut input, whole.split_at(behind).1);
    input
}

// The pack, with these bytes in place of as many at a place, and one byte behind it.
fn pack_with(rt: &impl Abort, alloc: Global, place: usize, patch: &[u8]) -> Vec<u8> {
    let mut whole = signed_pack(rt, alloc);
    add(rt, &mut whole, b"!");
    patched(rt, alloc, &whole, place, patch)
}

fn copied<T: Copy>(rt: &impl Abort, alloc: Global, items: &[T]) -> Vec<T> {
    items.to_vec(alloc).expect(rt, "memory for a link")
}

// A link that has this input, moves so many bytes in a call, and fails at these takes.
fn link_over(
    rt: &impl Abort,
    alloc: Global,
    input: &[u8],
    most: usize,
    failing_takes: &[u64],
) -> MemoryLink {
    let input = copied(rt, alloc, input);
    let failing_takes = copied(rt, alloc, failing_takes);
    MemoryLink::new(input, most.max(1), failing_takes, Vec::new(alloc))
}

fn objects_of(rt: &impl Abort, alloc: Global, link: &mut MemoryLink) -> ObjectList {
    read_pack(alloc, link).expect(rt, "a pack that is read")
}

fn fault_of(alloc: Global, link: &mut MemoryLink) -> Option<PackFault> {
    read_pack(alloc, link).err()
}

fn check_commit(rt: &impl Abort, commit: &Object) {
    assert!(rt; commit.kind() == Kind::Commit && commit.body().len() == 156);
    let text = commit.name().hex();
    assert!(rt; text.as_slice() == COMMIT_NAME.as_bytes());
}

fn check_objects(rt: &impl Abort, objects: &ObjectList) {
    assert_eq!(rt; objects.len(), 2);
    check_commit(rt, objects.get(0).expect(rt, "a commit"));
    let tree = objects.get(1).expect(rt, "a tree");
    assert!(rt; tree.kind() == Kind::Tree && tree.body().is_empty());
}

fn check_pack_by(rt: &impl Abort, alloc: Global, most: usize) {
    let input = pack_with(rt, alloc, 0, b"");
    let mut link = link_over(rt, alloc, &input, most, &[]);
    let objects = objects_of(rt, alloc, &mut link);
    assert_eq!(rt; link.left(), b"!".as_slice());
    check_objects(rt, &objects);
}

#[test]
fn a_pack_is_read(rt: HostRuntime) {
    for most in [1, 5, 1000] {
        check_pack_by(&rt, rt.alloc(), most);
    }
    let mut link = link_over(&rt, rt.alloc(), EMPTY_PACK, 1000, &[]);
    let objects = objects_of(&rt, rt.alloc(), &mut link);
    assert!(rt; objects.is_empty() && link.left().is_empty());
}

// Where the pack is changed, to what, the fault, and how many bytes show it.
static FAULTS: [(usize, &[u8], PackFault, usize); 18] = [
    (3, b"k", PackFault::NotAPack, 4),
    (7, b"\x03", PackFault::Version(3), 8),
    (4, b"\x01\0\0\x02", PackFault::Version(16_777_218), 8),
    (8, b"\0\x01\x86\xa1", PackFault::TooMany(100_001), 12),
    (8, b"\0\x01\x86\xa0", PackFault::Delta(2), 172),
    (12, b"\x60", PackFault::Delta(0), 13),
    (12, b"\xf0", PackFault::Delta(0), 13),
    (12, b"\x00", PackFault::BadHead(0), 13),
    (12, b"\xd0", PackFault::BadHead(0), 13),
    (13, b"\0", PackFault::BadHead(0), 14),
    (170, b"\xa0\0", PackFault::BadHead(1), 172),
    (12, b"\xb1\x80\x80\xc0\0", PackFault::BadHead(0), 17),
    (12, b"\xbf\xff\xff\xff\xff", PackFault::TooLarge(0), 17),
    (12, b"\xb1\x80\x80\x40", PackFault::TooLarge(0), 16),
    (12, b"\xb0\x80\x80\x40", PackFault::Truncated(0), 192),
    (17, b"f", PackFault::BadObject(0), 170),
    (
        170,
        b"\xaa\x03100644 b\000000000000000000000100644 a\000000000000000000000",
        PackFault::BadObject(1),
        230,
    ),
    (
        190,
        b"\xda",
        PackFault::TrailerDiffers {
            read: [
                100, 229, 109, 182, 94, 64, 237, 22, 11, 59, 211, 64, 82, 90, 182, 30, 130, 105,
                219, 218,
            ],
            computed: TRAILER,
        },
        191,
    ),
];

fn check_fault(rt: &impl Abort, alloc: Global, row: &(usize, &[u8], PackFault, usize)) {
    let (place, patch, fault, shown) = *row;
    let input = pack_with(rt, alloc, place, patch);
    let mut link = link_over(rt, alloc, &input, 1000, &[]);
    assert_eq!(rt; fault_of(alloc, &mut link), Some(fault));
    assert_eq!(rt;
        link.left().len(),
        input.len().saturating_sub(shown),
        "{fault:?}"
    );
}

#[test]
fn the_first_fault_is_told(rt: HostRuntime) {
    for row in &FAULTS {
        check_fault(&rt, rt.alloc(), row);
    }
}

// The entry in which an input of so many bytes ends.
fn cut_in(size: usize) -> u32 {
    match size {
        0..170 => 0,
        170 => 1,
        _ => 2,
    }
}

fn check_cut(rt: &impl Abort, alloc: Global, whole: &[u8], size: usize) {
    let input = whole.split_at(size.min(whole.len())).0;
    let mut link = link_over(rt, alloc, input, 1000, &[]);
    let fault = Some(PackFault::Truncated(cut_in(size)));
    assert_eq!(rt; fault_of(alloc, &mut link), fault, "{size}");
}

fn check_failing_take(rt: &impl Abort, alloc: Global, whole: &[u8], size: usize)
    requires { size < 192 }
{
    let mut link = link_over(rt, alloc, whole, 1, &[size as u64]);
    let fault = Some(PackFault::ReadFault);
    assert_eq!(rt; fault_of(alloc, &mut link), fault, "{size}");
    assert_eq!(rt; link.left().len(), 192 - size);
}

#[test]
fn a_pack_ends_early(rt: HostRuntime) {
    let whole = pack_with(&rt, rt.alloc(), 0, b"");
    for size in 0..191 {
        check_cut(&rt, rt.alloc(), &whole, size);
        check_failing_take(&rt, rt.alloc(), &whole, size);
    }
}

// The commit's body, which stands between its head and the head of the tree.
fn body_of(signed: &[u8]) -> &[u8] {
    let entry = signed.split_at(signed.len().saturating_sub(1)).0;
    entry.split_at(entry.len().min(14)).1
}

fn begun<S: Source>(rt: &impl Abort, alloc: Global, source: &mut S) -> PackReader {
    PackReader::begin(alloc, source).expect(rt, "a pack's header")
}

// Whether this is the next entry, the end, or the fault.
fn is_next(
    reader: &mut PackReader,
    link: &mut MemoryLink,
    due: Result<Option<PackEntry<'_>>, PackFault>,
) -> bool {
    reader.next_entry(link) == due
}

fn check_next(rt: &impl Abort, reader: &mut PackReader, link: &mut MemoryLink) {
    let commit = PackEntry {
        kind: Kind::Commit,
        body: body_of(SIGNED),
    };
    let tree = PackEntry {
        kind: Kind::Tree,
        body: b"",
    };
    assert!(rt; is_next(reader, link, Ok(Some(commit))));
    assert!(rt; is_next(reader, link, Ok(Some(tree))));
}

fn check_no_next(rt: &impl Abort, reader: &mut PackReader, link: &mut MemoryLink) {
    for _ in 0..2 {
        assert!(rt; is_next(reader, link, Ok(None)));
        assert_eq!(rt; link.left(), b"!".as_slice());
    }
}

fn check_read_faults(rt: &impl Abort, reader: &mut PackReader, link: &mut MemoryLink) {
    for _ in 0..2 {
        assert!(rt; is_next(reader, link, Err(PackFault::ReadFault)));
        assert_eq!(rt; link.left().len(), 172);
    }
}

#[test]
fn entries_are_lent_one_by_one(rt: HostRuntime) {
    let input = pack_with(&rt, rt.alloc(), 0, b"");
    let mut link = link_over(&rt, rt.alloc(), &input, 7, &[]);
    let mut reader = begun(&rt, rt.alloc(), &mut link);
    check_next(&rt, &mut reader, &mut link);
    check_no_next(&rt, &mut reader, &mut link);
    let mut link = link_over(&rt, rt.alloc(), &input, 1, &[20]);
    let mut reader = begun(&rt, rt.alloc(), &mut link);
    check_read_faults(&rt, &mut reader, &mut link);
}

fn repo_of(rt: &impl Abort, alloc: Global, objects: &ObjectList) -> Repo {
    let mut repo = Repo::empty(alloc).expect(rt, "memory for a repository");
    let added = repo.add_objects(objects);
    assert!(rt; added == Added::Added);
    repo
}

// A repository with the commit and the empty tree of the pack above.
fn commit_and_tree(rt: &impl Abort, alloc: Global) -> Repo {
    let input = pack_with(rt, alloc, 0, b"");
    let mut link = link_over(rt, alloc, &input, 1000, &[]);
    let objects = objects_of(rt, alloc, &mut link);
    repo_of(rt, alloc, &objects)
}

// A link that moves so many bytes in a call and fails at these puts.
fn sink_of(rt: &impl Abort, alloc: Global, most: usize, failing_puts: &[u64]) -> MemoryLink {
    let failing_puts = copied(rt, alloc, failing_puts);
    MemoryLink::new(Vec::new(alloc), most.max(1), Vec::new(alloc), failing_puts)
}

// Writes the pack of the objects at these places.
fn write_places(
    rt: &impl Abort,
    link: &mut MemoryLink,
    repo: &Repo,
    places: &[u32],
) -> Result<(), WriteFault> {
    let count = repo.count();
    assert!(rt; places.len() <= 1000);
    assert!(rt; places.iter().all(|place| (*place as usize) < count));
    write_pack(link, repo, places)
}

fn check_written(
    rt: &impl Abort,
    alloc: Global,
    repo: &Repo,
    places: &[u32],
    due: &[u8],
    most: usize,
) {
    let mut link = sink_of(rt, alloc, most, &[]);
    let answer = write_places(rt, &mut link, repo, places);
    assert!(rt; answer == Ok(()));
    assert!(rt; link.written() == due);
}

#[test]
fn a_pack_is_written(rt: HostRuntime) {
    let repo = commit_and_tree(&rt, rt.alloc());
    let both = signed_pack(&rt, rt.alloc());
    for most in [1, 5, 1000] {
        check_written(&rt, rt.alloc(), &repo, &[], EMPTY_PACK, most);
        check_written(&rt, rt.alloc(), &repo, &[0, 1], &both, most);
    }
}

fn check_failing_put(rt: &impl Abort, alloc: Global, repo: &Repo, whole: &[u8], size: u64) {
    let mut link = sink_of(rt, alloc, 1, &[size]);
    let answer = write_places(rt, &mut link, repo, &[0, 1]);
    assert!(rt; answer == Err(WriteFault::Failed), "{size}");
    assert_eq!(rt; link.written().len() as u64, size);
    assert!(rt; whole.starts_with(link.written()), "{size}");
}

#[test]
fn each_failing_put_ends_a_pack_there(rt: HostRuntime) {
    let repo = commit_and_tree(&rt, rt.alloc());
    let whole = pack_with(&rt, rt.alloc(), 0, b"");
    for size in 0..191 {
        check_failing_put(&rt, rt.alloc(), &repo, &whole, size);
    }
}

fn is_kind(objects: &ObjectList, at: usize, kind: Kind) -> bool {
    match objects.get(at) {
        Some(object) => object.kind() == kind,
        None => false,
    }
}

fn check_kinds(rt: &impl Abort, objects: &ObjectList) {
    assert_eq!(rt; objects.len(), 3);
    for (at, kind) in [(0, Kind::Tree), (1, Kind::Commit), (2, Kind::Tree)] {
        assert!(rt; is_kind(objects, at, kind), "{at}");
    }
}

// The objects of a pack that was written.
fn objects_read(rt: &impl Abort, alloc: Global, written: &[u8]) -> ObjectList {
    let mut link = link_over(rt, alloc, written, 1_000_000, &[]);
    let objects = objects_of(rt, alloc, &mut link);
    assert!(rt; link.left().is_empty());
    objects
}

#[test]
fn objects_are_written_in_the_order_of_their_places(rt: HostRuntime) {
    let repo = commit_and_tree(&rt, rt.alloc());
    let mut link = sink_of(&rt, rt.alloc(), 1000, &[]);
    let answer = write_places(&rt, &mut link, &repo, &[1, 0, 1]);
    assert!(rt; answer == Ok(()));
    let objects = objects_read(&rt, rt.alloc(), link.written());
    check_kinds(&rt, &objects);
}

// The size of a blob, and the head of its entry.
static HEADS: [(usize, &[u8]); 7] = [
    (0, b"\x30"),
    (15, b"\x3f"),
    (16, b"\xb0\x01"),
    (2047, b"\xbf\x7f"),
    (2048, b"\xb0\x80\x01"),
    (262_143, b"\xbf\xff\x7f"),
    (262_144, b"\xb0\x80\x80\x01"),
];

// A repository with a blob of so many zero bytes.
fn repo_of_blob(rt: &impl Abort, alloc: Global, size: usize) -> Repo {
    let body = vec![in alloc; 0; size.min(262_144)].expect(rt, "memory for a body");
    let blob = Object::from_body(alloc, Kind::Blob, body).expect(rt, "a blob");
    let mut blobs = ObjectList::new(alloc);
    blobs.push(blob).expect(rt, "memory for an object");
    repo_of(rt, alloc, &blobs)
}

fn check_head(rt: &impl Abort, written: &[u8], size: usize, head: &[u8]) {
    let behind = written.split_at(written.len().min(12)).1;
    assert!(rt; behind.starts_with(head), "{size}");
    assert_eq!(rt;
        behind.len().saturating_sub(head.len()),
        size.saturating_add(20)
    );
}

fn check_blob(rt: &impl Abort, objects: &ObjectList, size: usize) {
    assert_eq!(rt; objects.len(), 1);
    let blob = objects.get(0).expect(rt, "a blob");
    assert_eq!(rt; blob.body().len(), size);
}

fn check_size(rt: &impl Abort, alloc: Global, size: usize, head: &[u8]) {
    let repo = repo_of_blob(rt, alloc, size);
    let mut link = sink_of(rt, alloc, 1_000_000, &[]);
    let answer = write_places(rt, &mut link, &repo, &[0]);
    assert!(rt; answer == Ok(()));
    check_head(rt, link.written(), size, head);
    let objects = objects_read(rt, alloc, link.written());
    check_blob(rt, &objects, size);
}

#[test]
fn heads_are_as_short_as_can_be(rt: HostRuntime) {
    for (size, head) in &HEADS {
        check_size(&rt, rt.alloc(), *size, head);
    }
}

fn crosses_threads<T: Send + Sync + Drop>(_value: T) {}

#[test]
fn readers_cross_threads(rt: HostRuntime) {
    let mut link = link_over(&rt, rt.alloc(), EMPTY_PACK, 1000, &[]);
    crosses_threads(begun(&rt, rt.alloc(), &mut link));
    crosses_threads(PackFault::NotAPack);
    crosses_threads(PackEntry {
        kind: Kind::Blob,
        body: EMPTY_PACK,
    });
}

// A pack of 17 blobs of 16,777,216 zero bytes, made as it is read: so far into it. The first 16 are as large
// as the bodies of a pack may be together.
#[derive(Drop)]
struct MadePack {
    at: u64,
    ghost below: { at < 2 ^ 63 },
}

// The header, and the head of an entry.
const MADE: [u8; 16] = *b"PACK\0\0\0\x02\0\0\0\x11\xb0\x80\x80\x40";

const MADE_ENTRY: u64 = 16_777_220;

impl Endpoint for MadePack {
    ghost state = { λ made. record { left = None; given = made.at; read_faults = 0; written = None; write_faults = 0; may_lack = false; may_fail = false; tells = false; limits = Whole } };

    ghost telling = { λ made tells. tells };
}

impl Source for MadePack {
    fn take(&mut self, room: &mut [u8]) -> Taken {
        if self.at >= 1 << 40 {
            return Taken::End;
        }
        let place = match self.at {
            0..12 => self.at,
            _ => 12 + (self.at - 12) % MADE_ENTRY,
        };
        if let Some(byte) = MADE.get(place as usize) {
            room[0] = *byte;
            self.at += 1;
            return Taken::Got(1);
        }
        let count = room.len().min((12 + MADE_ENTRY - place) as usize);
        room.split_at_mut(count).0.fill(0);
        self.at += count as u64;
        Taken::Got(count)
    }

    ghost given_below = { λ made. made.below };
}

// How long the body of the next entry is, where there is one.
fn next_size(reader: &mut PackReader, made: &mut MadePack) -> Option<usize> {
    match reader.next_entry(made) {
        Ok(Some(entry)) => Some(entry.body.len()),
        _ => None,
    }
}

fn is_next_too_large(reader: &mut PackReader, made: &mut MadePack) -> bool {
    reader.next_entry(made) == Err(PackFault::TooLarge(16))
}

#[test]
fn all_bodies_together_are_too_large(rt: HostRuntime) {
    let mut made = MadePack { at: 0 };
    let mut reader = begun(&rt, rt.alloc(), &mut made);
    for _ in 0..16 {
        assert!(rt; next_size(&mut reader, &mut made) == Some(16_777_216));
    }
    for _ in 0..2 {
        assert!(rt; is_next_too_large(&mut reader, &mut made));
        assert_eq!(rt; made.at, 12 + 16 * MADE_ENTRY + 4);
    }
}
