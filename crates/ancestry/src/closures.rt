// Closures of some objects, which are kept beside a repository.
ghost use Rattle.std.specs.Prelude.{◌≡◌, ◌⊎◌, ◌++◌, ◌∷◌, [], IfOk, IfSome, List, OnOk, true};
ghost use Rattle.std.specs.List.{Contains};
ghost use Rattle.git_object.specs.Content.{Content};
ghost use Rattle.git_object.specs.declared.object_id.ObjectId.{ObjectId};
ghost use Rattle.ancestry.specs.declared.runs.Run.{Run};
ghost use Rattle.ancestry.specs.Closures.{AreClosures, Begins};

use crate::closing::closure_of;
use crate::known::Known;
use crate::runs::Runs;
use base_types::NoMemory;
use git_object::ObjectId;
use ref_store::Repo;
use std::alloc::{AllocError, Global};
use std::marker::Model;
use std::sync::Arc;

// The places of all that an object leads to, itself too.
#[derive(Drop)]
pub struct Closure {
    id: ObjectId,
    // The try at which it was made, behind `NO_TRY`.
    number: u64,
    runs: Arc<Runs>,
}

impl Model for Closure {
    ghost use Rattle.std.specs.Arc.{arc_value};
    ghost use Rattle.std.specs.Prelude.{List};
    ghost use Rattle.git_object.specs.declared.object_id.ObjectId.{ObjectId};
    ghost use Rattle.ancestry.specs.declared.runs.Run.{Run};

    ghost Value = { ObjectId × List Run };

    ghost view = { λ c. (c.id, arc_value c.runs) };
}

impl Closure {
    fn runs(&self) -> &Runs
        ensures { result.now ≡ self.now.1 }
    {
        &self.runs
    }

    // Whether it is of this object.
    fn is_of(&self, id: ObjectId) -> bool
        ensures { result ≡ true → self.now.0 ≡ id }
    {
        self.id == id
    }

    // What it counts for of the room that closures have.
    fn size(&self) -> usize {
        self.runs.len().saturating_add(LEAST_SIZE)
    }

    // The same, numbered behind so many.
    fn numbered_behind(&self, number: u64) -> Result<Closure, NoMemory>
        ensures { IfOk result (λ same. same ≡ self.now) }
    {
        let runs = Arc::try_clone(&self.runs)?;
        Ok(Closure {
            id: self.id,
            number: number.saturating_add(tries_in(self.number)),
            runs,
        })
    }
}

// What a closure without runs counts for, in runs.
const LEAST_SIZE: usize = 8;

// Of how many objects a push makes closures at most.
const MOST_MADE: usize = 4;

// The number before the first try: so the first closure has a number that no later one's weight comes up to.
const NO_TRY: u64 = u64::MAX / 2;

// Of the last tries the closures of how many stay.
const MOST_LAST: u64 = 16;

// How often that can be halved.
const HALVINGS: u64 = 5;

// How many commits a try of weight 1 may walk along, beyond as many as objects came since the last closures.
const FEW: usize = 64;

// From this weight on a try may walk no further.
const MOST_WEIGHT: u64 = 16_384;

/// For some objects of a repository, the places of all that each leads to. Clones share them.
///
/// Tries to make one are numbered, and the weight of a try is the greatest power of two that divides its
/// number. So many times as far may it walk, and for so many times as many tries what it made stays. So a
/// long walk is rare and what it found stays long, the first closure stays, the last few are there, and of
/// older ones ever fewer: eight for each power of two, and half, a quarter, an eighth or a sixteenth of them
/// where those have more runs than half as many as the repository has objects.
#[derive(Drop)]
pub struct Closures {
    closures: Vec<Closure>,
    // The number of the last try.
    number: u64,
}

impl Model for Closures {
    ghost use Rattle.std.specs.Prelude.{List};
    ghost use Rattle.git_object.specs.declared.object_id.ObjectId.{ObjectId};
    ghost use Rattle.ancestry.specs.declared.runs.Run.{Run};

    ghost Value = { List (ObjectId × List Run) };

    ghost view = { λ c. c.closures.items };
}

impl Closures {
    pub fn none(alloc: Global) -> Closures
        ensures none { result ≡ [] }
        ensures right { (objects : List Content) → AreClosures objects result }
    {
        Closures {
            closures: Vec::new(alloc),
            number: NO_TRY,
        }
    }

    pub(crate) fn len(&self) -> usize {
        self.closures.len()
    }

    pub(crate) fn is_empty(&self) -> bool {
        self.closures.is_empty()
    }

    // The end of all of them.
    fn end(&self) -> u32 {
        let mut end: u32 = 0;
        for closure in &self.closures {
            end = end.max(closure.runs.end());
        }
        end
    }

    /// The least generation of what closures are kept of; 0 where one isn't known.
    pub(crate) fn least_generation(&self, known: &Known) -> u64 {
        let mut least = u64::MAX;
        for closure in &self.closures {
            least = least.min(known.generation(closure.id).unwrap_or(0));
        }
        least
    }

    // How many commits the next try may walk along behind so many others, where there are so many objects.
    fn limit_behind(&self, tries: u64, count: usize) -> usize {
        let number = self.number.saturating_add(tries).saturating_add(1);
        let most = FEW * weight_of(number).min(MOST_WEIGHT) as usize;
        count
            .saturating_sub(self.end() as usize)
            .saturating_add(most)
    }

    /// That of this object, where there is one.
    pub(crate) fn get(&self, id: ObjectId) -> Option<&Runs>
        ensures { IfSome result (λ runs. Contains self.now (id, runs.now)) }
    {
        for closure in &self.closures {
            if closure.is_of(id) {
                return Some(closure.runs());
            }
        }
        None
    }

    // One try more, at which none was made.
    fn skip(&mut self)
        ensures { self.new ≡ self.old }
    {
        self.number = self.number.saturating_add(1);
    }

    // One more.
    fn push(&mut self, alloc: Global, id: ObjectId, runs: Runs) -> Result<(), NoMemory>
        ensures { OnOk result (self.new ≡ self.old ++ (id, runs) ∷ []) }
    {
        self.number = self.number.saturating_add(1);
        let closure = Closure {
            id,
            number: self.number,
            runs: Arc::new(alloc, runs)?,
        };
        self.closures.push(closure)?;
        Ok(())
    }

    /// These and those that were made, of which some are left out: as many as the repository, which has so
    /// many objects by now, has no room for, and those that are near others of their age. It costs a few
    /// shares.
    pub fn with(&self, alloc: Global, made: &Closures, count: usize) -> Result<Closures, NoMemory>
        ensures of { IfOk result (λ both. (closure : ObjectId × List Run) → Contains both closure → Contains self.now closure ⊎ Contains made.now closure) }
        ensures right { (fewer among more : List Content) → Begins fewer more → Begins among more → AreClosures fewer self.now → AreClosures among made.now → IfOk result (AreClosures more) }
    {
        let number = self.number.saturating_add(tries_in(made.number));
        let room = (count / 2).saturating_sub(made.size());
        let mut closures = staying(alloc, &self.closures, number, room)?;
        add_numbered(&mut closures, &made.closures, self.number)?;
        Ok(Closures { closures, number })
    }

    fn size(&self) -> usize {
        let mut size: usize = 0;
        for closure in &self.closures {
            size = size.saturating_add(closure.size());
        }
        size
    }
}

impl Clone for Closures {
    ghost is_clone = { λ closures copy. copy ≡ closures };

    fn clone(&self) -> Result<Closures, AllocError> {
        Ok(Closures {
            closures: self.closures.clone()?,
            number: self.number,
        })
    }
}

impl Clone for Closure {
    ghost is_clone = { λ closure copy. copy ≡ closure };

    fn clone(&self) -> Result<Closure, AllocError> {
        Ok(Closure {
            id: self.id,
            number: self.number,
            runs: Arc::try_clone(&self.runs)?,
        })
    }
}

// Those that stay at a try, and have room.
fn staying(
    alloc: Global,
    closures: &[Closure],
    number: u64,
    room: usize,
) -> Result<Vec<Closure>, NoMemory>
    ensures { IfOk result (λ some. (closure : ObjectId × List Run) → Contains some.items closure → Contains closures.now closure) }
{
    let last = last_with_room(closures, number, room);
    let mut some = Vec::new(alloc);
    for closure in closures {
        if !stays(closure.number, number, last) {
            continue;
        }
        some.push(closure.clone()?)?;
    }
    Ok(some)
}

// Of how many of the last tries the closures can stay, so that all that stay have room; 0 where they never
// have.
fn last_with_room(closures: &[Closure], number: u64, room: usize) -> u64 {
    for halvings in 0..HALVINGS {
        let last = MOST_LAST >> halvings;
        if size_of_staying(closures, number, last) <= room {
            return last;
        }
    }
    0
}

fn size_of_staying(closures: &[Closure], number: u64, last: u64) -> usize {
    let mut size: usize = 0;
    for closure in closures {
        if stays(closure.number, number, last) {
            size = size.saturating_add(closure.size());
        }
    }
    size
}

// Whether what was made at one try stays at another, where that of so many of the last ones does.
fn stays(made: u64, number: u64, last: u64) -> bool {
    number.saturating_sub(made) < weight_of(made).saturating_mul(last)
}

// The greatest power of two that divides a number.
fn weight_of(number: u64) -> u64 {
    number & number.wrapping_neg()
}

// How many tries there were, by the number of the last one.
fn tries_in(number: u64) -> u64 {
    number.saturating_sub(NO_TRY)
}

// Adds those that were made, with numbers behind this one.
fn add_numbered(closures: &mut Vec<Closure>, made: &[Closure], number: u64) -> Result<(), NoMemory>
    ensures { OnOk result ((closure : ObjectId × List Run) → Contains closures.new.items closure → Contains closures.old.items closure ⊎ Contains made.now closure) }
{
    for closure in made {
        closures.push(closure.numbered_behind(number)?)?;
    }
    Ok(())
}

/// The closures of those of these objects of which none is kept: of at most four, and only where all that an
/// object leads to is there. It costs what came since the next ones that are kept, where those aren't far.
pub fn closures_of(
    alloc: Global,
    repo: &Repo,
    kept: &Closures,
    ids: &[ObjectId],
) -> Result<Closures, NoMemory>
    requires { AreClosures repo.now.objects kept.now }
    ensures { IfOk result (AreClosures repo.now.objects) }
{
    let mut made = Closures::none(alloc);
    for id in ids {
        add_one(alloc, repo, kept, &mut made, *id)?;
    }
    Ok(made)
}

// Adds the closure of an object, where there is room for one, none is there or kept, and there is one.
fn add_one(
    alloc: Global,
    repo: &Repo,
    kept: &Closures,
    made: &mut Closures,
    id: ObjectId,
) -> Result<(), NoMemory>
    requires kept { AreClosures repo.now.objects kept.now }
    requires made { AreClosures repo.now.objects made.old }
    ensures { OnOk result (AreClosures repo.now.objects made.new) }
{
    if made.len() >= MOST_MADE || kept.get(id).is_some() || made.get(id).is_some() {
        return Ok(());
    }
    let limit = kept.limit_behind(tries_in(made.number), repo.count());
    let Some(runs) = closure_of(alloc, repo, kept, id, limit)? else {
        made.skip();
        return Ok(());
    };
    made.push(alloc, id, runs)?;
    Ok(())
}
