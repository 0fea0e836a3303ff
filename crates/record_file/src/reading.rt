// What a file's bytes say of its head and of a gate.
ghost use Rattle.std.specs.Prelude.{◌≡◌, ◌+◌, ◌<◌, List, ℕ, length, take, slice_index};
ghost use Rattle.record_file.specs.Reading.{ReadsHead};
ghost use Rattle.record_file.specs.Gates.{IsGateOf, IsWithin};

use crate::OpenFault;

// What a gate and the length behind it say.
#[derive(Clone, Copy, Drop)]
pub(crate) enum Gate {
    // The zero gate.
    Closed,
    // No whole record with a byte behind it follows.
    Bad,
    // A record whose body has so many bytes.
    Record(u64),
}

// What stands behind a head with these magic bytes and this name.
pub(crate) fn split_head<'a>(
    bytes: &'a [u8],
    magic: &[u8],
    name: &[u8],
) -> Result<&'a [u8], OpenFault>
    requires { 0 < length bytes.now }
    ensures { ReadsHead magic.now name.now bytes.now result }
{
    let Some(behind) = bytes.strip_prefix(magic) else {
        return Err(OpenFault::NotARecordFile);
    };
    let Some((count, behind)) = behind.split_first() else {
        return Err(OpenFault::NotARecordFile);
    };
    let count = *count as usize;
    if behind.len() <= count {
        return Err(OpenFault::NotARecordFile);
    }
    let (its, rest) = behind.split_at(count);
    if its != name {
        return Err(OpenFault::NameDiffers);
    }
    Ok(rest)
}

// A gate that has no length behind it.
pub(crate) fn last_gate(gate: &[u8]) -> Gate
    requires { length gate.now ≡ 1 }
    ensures gate { (rest : List ℕ) → 0 < length rest → length rest < 9 → gate.now ≡ take 1 rest → IsGateOf rest result }
    ensures within { (left : ℕ) → IsWithin result left }
{
    if gate[0] == 0 {
        return Gate::Closed;
    }
    Gate::Bad
}

// A gate with eight bytes of length, and so many bytes behind these.
pub(crate) fn gate_of(bytes: &[u8], behind: u64) -> Gate
    requires { length bytes.now ≡ 9 }
    ensures gate { (rest : List ℕ) → length rest ≡ behind + 9 → bytes.now ≡ take 9 rest → IsGateOf rest result }
    ensures within { IsWithin result (behind + 9) }
{
    if bytes[0] == 0 {
        return Gate::Closed;
    }
    let Some((digits, _)) = bytes.split_at(1).1.split_first_chunk::<8>() else {
        return Gate::Bad;
    };
    let size = u64::from_be_bytes(*digits);
    if size >= behind {
        return Gate::Bad;
    }
    Gate::Record(size)
}

// Does nothing: it is there for its clause.
pub(crate) fn bytes_fit(bytes: &[u8])
    ensures { (i : ℕ) → slice_index bytes.now i < 256 }
{}
