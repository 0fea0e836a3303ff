// Runs of two, of one without another, and of places.
ghost use Rattle.std.specs.Prelude.{◌≡◌, ◌↔◌, ◌<◌, IfOk, IfSome, None, true, ℕ};
ghost use Rattle.std.specs.List.{All, Contains};
ghost use Rattle.std.specs.List.Sorted.{IsNonDecreasing};
ghost use Rattle.ancestry.specs.Runs.{AreOutside, HasNoneFrom, IsFirstFrom, IsPast, is_in, is_in_one};

use crate::runs::Runs;
use base_types::NoMemory;
use std::alloc::Global;

/// The places that are in one or the other. It costs the runs of both, times the logarithm of their number.
pub fn union(alloc: Global, one: &Runs, other: &Runs) -> Result<Runs, NoMemory>
    ensures { IfOk result (λ both. (place : ℕ) → is_in both place ≡ is_in_one one.now other.now place) }
{
    let mut both = Runs::none(alloc);
    let mut at = 0;
    while let Some(from) = next_in_one(one, other, at) {
        let to = past_in_one(one, other, from);
        both.push(from, to)?;
        at = to;
    }
    Ok(both)
}

// The first place from this one on that is in one or the other.
fn next_in_one(one: &Runs, other: &Runs, at: u32) -> Option<u32>
    ensures none { result ≡ None → HasNoneFrom (is_in_one one.now other.now) at }
    ensures some { IfSome result (IsFirstFrom (is_in_one one.now other.now) at) }
{
    match (one.next(at), other.next(at)) {
        (Some(place), Some(beside)) => Some(place.min(beside)),
        (Some(place), None) => Some(place),
        (None, Some(beside)) => Some(beside),
        (None, None) => None,
    }
}

// The end of the run of one or the other that has this place, the later where both have it; and else this
// place.
fn past_in_one(one: &Runs, other: &Runs, at: u32) -> u32
    ensures { IsPast (is_in_one one.now other.now) at result }
{
    one.past(at).max(other.past(at))
}

/// The places that are in one and not in the other, in order. It costs these places and the runs of both,
/// times the logarithm of the number of the runs.
pub fn outside(alloc: Global, runs: &Runs, without: &Runs) -> Result<Vec<u32>, NoMemory>
    ensures { IfOk result (λ places. AreOutside runs.now without.now places.items) }
{
    let mut places = Vec::new(alloc);
    let mut at = 0;
    while let Some(place) = runs.next(at) {
        let past = without.past(place);
        if past > place {
            at = past;
            continue;
        }
        places.push(place)?;
        at = place + 1;
    }
    Ok(places)
}

/// The runs of places that ascend.
pub fn runs_of(alloc: Global, places: &[u32]) -> Result<Runs, NoMemory>
    requires ascend { IsNonDecreasing places.now }
    requires small { All (λ place. place < 4294967295) places.now }
    ensures { IfOk result (λ runs. (place : ℕ) → is_in runs place ≡ true ↔ Contains places.now place) }
{
    let mut runs = Runs::none(alloc);
    for place in places {
        if runs.contains(*place) {
            continue;
        }
        runs.push(*place, *place + 1)?;
    }
    Ok(runs)
}
