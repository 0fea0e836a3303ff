// What a client sends that pushes.
ghost use Rattle.std.specs.Prelude.{◌≡◌, ◌++◌, ◌∷◌, [], ◌+◌, ◌≤◌, ◌<◌, ◌^◌, All, IfOk, OnOk, codes, flat_map, length, map};
ghost use Rattle.std.specs.Int.{w32, to_be_bytes};
ghost use Rattle.git_object.specs.ObjectId.{hex_of};
ghost use Rattle.pktline_core.specs.Packets.{Flush, Line, four_digits, hex_digit, spelling};
ghost use Rattle.raw_pack.specs.Grammar.{before_trailer, kind_bits, spelled_entry, spelled_head, spelled_pack};
ghost use Rattle.installation.specs.Sending.{asking_to_push, change_of, command_line, content_of, pushing};

use base_types::NoMemory;
use git_object::{Kind, MAX_BODY, ObjectId};
use sha1::Sha1;
use std::alloc::Global;

/// An object as it goes into a pack.
#[derive(Clone, Copy)]
pub(crate) struct Packed<'a> {
    pub kind: Kind,
    pub body: &'a [u8],
}

/// Which ref is to have which value in place of which.
#[derive(Clone, Copy)]
pub(crate) struct Change<'a> {
    pub old: ObjectId,
    pub new: ObjectId,
    pub name: &'a [u8],
}

fn hex_digit(value: u16) -> u8
    requires { value < 16 }
    ensures { result ≡ hex_digit value }
{
    if value < 10 {
        b'0' + value as u8
    } else {
        b'a' - 10 + value as u8
    }
}

fn four_digits(length: u16) -> [u8; 4]
    ensures { result ≡ four_digits length }
{
    [
        hex_digit(length / 4096 % 16),
        hex_digit(length / 256 % 16),
        hex_digit(length / 16 % 16),
        hex_digit(length % 16),
    ]
}

#[tactic(auto, unfolding(pktline_core::specs::Packets::spelling))]
fn add_packet(bytes: &mut Vec<u8>, line: &[u8]) -> Result<(), NoMemory>
    requires { length line.now < 65000 }
    ensures { OnOk result (bytes.new.items ≡ bytes.old.items ++ spelling (Line line.now)) }
{
    bytes.extend_from_slice(&four_digits((line.len() + 4) as u16))?;
    bytes.extend_from_slice(line)?;
    Ok(())
}

#[tactic(auto, unfolding(pktline_core::specs::Packets::spelling))]
fn add_flush(bytes: &mut Vec<u8>) -> Result<(), NoMemory>
    ensures { OnOk result (bytes.new.items ≡ bytes.old.items ++ spelling Flush) }
{
    bytes.extend_from_slice(b"0000")?;
    Ok(())
}

// The number that names a kind in a head.
fn kind_bits(kind: Kind) -> u8
    ensures { result ≡ kind_bits kind }
{
    match kind {
        Kind::Commit => 1,
        Kind::Tree => 2,
        Kind::Blob => 3,
        Kind::Tag => 4,
    }
}

// The head of an entry: four bits of the size in its first byte, and seven more in each byte behind it.
#[tactic(auto, unfolding(raw_pack::specs::Grammar::spelled_head))]
fn add_head(pack: &mut Vec<u8>, kind: Kind, size: u32) -> Result<(), NoMemory>
    requires { size ≤ MAX_BODY }
    ensures { OnOk result (pack.new.items ≡ pack.old.items ++ spelled_head kind size) }
{
    let first = 16 * kind_bits(kind) + (size % 16) as u8;
    if size < 16 {
        pack.extend_from_slice(&[first])?;
        return Ok(());
    }
    let second = (size / 16 % 128) as u8;
    if size < 2048 {
        pack.extend_from_slice(&[128 + first, second])?;
        return Ok(());
    }
    let third = (size / 2048 % 128) as u8;
    if size < 262_144 {
        pack.extend_from_slice(&[128 + first, 128 + second, third])?;
        return Ok(());
    }
    let fourth = (size / 262_144) as u8;
    pack.extend_from_slice(&[128 + first, 128 + second, 128 + third, fourth])?;
    Ok(())
}

fn add_entry(pack: &mut Vec<u8>, packed: &Packed<'_>) -> Result<(), NoMemory>
    requires { length packed.now.body.now ≤ MAX_BODY }
    ensures { OnOk result (pack.new.items ≡ pack.old.items ++ spelled_entry (content_of packed.now)) }
{
    add_head(pack, packed.kind, packed.body.len() as u32)?;
    pack.extend_from_slice(packed.body)?;
    Ok(())
}

fn add_entries(pack: &mut Vec<u8>, contents: &[Packed<'_>]) -> Result<(), NoMemory>
    requires { All (λ packed. length packed.body.now ≤ MAX_BODY) contents.now }
    ensures { OnOk result (pack.new.items ≡ pack.old.items ++ flat_map spelled_entry (map content_of contents.now)) }
{
    for packed in contents {
        add_entry(pack, packed)?;
    }
    Ok(())
}

// What comes before a pack's trailer.
#[tactic(auto, unfolding(raw_pack::specs::Grammar::before_trailer))]
fn before_trailer(alloc: Global, contents: &[Packed<'_>]) -> Result<Vec<u8>, NoMemory>
    requires few { length contents.now < 2 ^ 32 }
    requires small { All (λ packed. length packed.body.now ≤ MAX_BODY) contents.now }
    ensures { IfOk result (λ pack. pack.items ≡ before_trailer (map content_of contents.now)) }
{
    let mut pack = b"PACK".to_vec(alloc)?;
    pack.extend_from_slice(&[0, 0, 0, 2])?;
    pack.extend_from_slice(&(contents.len() as u32).to_be_bytes())?;
    add_entries(&mut pack, contents)?;
    Ok(pack)
}

/// The pack of these objects.
#[tactic(auto, unfolding(raw_pack::specs::Grammar::spelled_pack))]
pub(crate) fn pack_of(alloc: Global, contents: &[Packed<'_>]) -> Result<Vec<u8>, NoMemory>
    requires few { length contents.now < 2 ^ 32 }
    requires small { All (λ packed. length packed.body.now ≤ MAX_BODY) contents.now }
    ensures { IfOk result (λ pack. pack.items ≡ spelled_pack (map content_of contents.now)) }
{
    let mut pack = before_trailer(alloc, contents)?;
    let trailer = Sha1::digest(&pack);
    pack.extend_from_slice(&trailer)?;
    Ok(pack)
}

// The first packet's line.
fn asking_to_push(alloc: Global, user: &[u8], repo: &[u8]) -> Result<Vec<u8>, NoMemory>
    ensures { IfOk result (λ line. line.items ≡ asking_to_push user.now repo.now) }
{
    let mut line = user.to_vec(alloc)?;
    line.extend_from_slice(b" git-receive-pack '")?;
    line.extend_from_slice(repo)?;
    line.extend_from_slice(b"'")?;
    Ok(line)
}

fn add_word(line: &mut Vec<u8>, word: &[u8]) -> Result<(), NoMemory>
    ensures { OnOk result (line.new.items ≡ line.old.items ++ 32 ∷ word.now) }
{
    line.push(b' ')?;
    line.extend_from_slice(word)?;
    Ok(())
}

// The command's line, by which a report is asked for.
fn command_line(alloc: Global, change: &Change<'_>) -> Result<Vec<u8>, NoMemory>
    ensures line { IfOk result (λ line. line.items ≡ command_line (change_of change.now)) }
    ensures short { IfOk result (λ line. length line.items ≤ length change.now.name.now + 100) }
{
    let mut line = change.old.hex().to_vec(alloc)?;
    add_word(&mut line, &change.new.hex())?;
    add_word(&mut line, change.name)?;
    line.extend_from_slice(b"\0report-status")?;
    Ok(line)
}

/// A push of one command, and the pack of these objects.
#[tactic(auto, unfolding(crate::specs::Sending::pushing))]
pub(crate) fn pushing(
    alloc: Global,
    user: &[u8],
    repo: &[u8],
    change: &Change<'_>,
    contents: &[Packed<'_>],
) -> Result<Vec<u8>, NoMemory>
    requires names { length user.now + length repo.now + length change.now.name.now < 60000 }
    requires few { length contents.now < 2 ^ 32 }
    requires small { All (λ packed. length packed.body.now ≤ MAX_BODY) contents.now }
    ensures { IfOk result (λ bytes. bytes.items ≡ pushing user.now repo.now (change_of change.now) (map content_of contents.now)) }
{
    let mut bytes = Vec::new(alloc);
    add_packet(&mut bytes, &asking_to_push(alloc, user, repo)?)?;
    add_packet(&mut bytes, &command_line(alloc, change)?)?;
    add_flush(&mut bytes)?;
    bytes.extend_from_slice(&pack_of(alloc, contents)?)?;
    Ok(bytes)
}
