// A plain walk, which knows nothing at first and keeps nothing.
ghost use Rattle.std.specs.Prelude.{◌≡◌, ◌∷◌, ◌<◌, ◌^◌, [], IfOk, IfSome, OnOk, slice_get, length};
ghost use Rattle.ancestry.specs.Verdict.{IsToldOf};
ghost use Rattle.ancestry.specs.Walk.{wanted_by};
ghost use Rattle.git_object.specs.Object.{links_of};

use crate::verdict::Verdict;
use base_types::NoMemory;
use git_object::{Kind, Object, ObjectId};
use indexmap::IndexSet;
use ref_store::{Lens, Salt};
use std::alloc::Global;

// The ids that were met, in the order in which they came, and what is told of them where their links are left
// aside.
#[derive(Drop)]
struct Seen {
    known: IndexSet<ObjectId, Salt>,
    verdict: Verdict,
}

impl Seen {
    ghost use Rattle.ancestry.specs.Seen.{Notes};

    // The id at a place.
    fn nth(&self, at: usize) -> Option<ObjectId>
        ensures id { result ≡ slice_get self.now.known.keys at }
        ensures within { IfSome result (λ _. at < length self.now.known.keys) }
        ensures small { IfSome result (λ _. at < 2 ^ 63) }
    {
        if at >= self.known.len() {
            return None;
        }
        match self.known.get_index(at) {
            Some(id) => Some(*id),
            None => None,
        }
    }

    // Notes an id of which a kind is wanted.
    fn note(&mut self, lens: &Lens, id: ObjectId, wanted: Option<Kind>) -> Result<(), NoMemory>
        ensures { OnOk result (Notes lens.now self.old self.new ((id, wanted) ∷ [])) }
    {
        self.known.insert(id)?;
        self.verdict = self.verdict.worse(Verdict::alone(lens.get(id), id, wanted));
        Ok(())
    }

    // Notes each link of an object.
    fn enter(&mut self, lens: &Lens, object: &Object) -> Result<(), NoMemory>
        ensures { OnOk result (Notes lens.now self.old self.new (wanted_by (links_of object.now.kind object.now.body))) }
    {
        for (to, wanted) in object.links() {
            self.note(lens, to, Some(wanted))?;
        }
        Ok(())
    }
}

// What is told of all that is met from a root.
// What was met is a list of work too: those behind the next one were not entered yet.
pub fn walk(
    alloc: Global,
    lens: &Lens,
    root: ObjectId,
    kind: Option<Kind>,
) -> Result<Verdict, NoMemory>
    ensures { IfOk result (λ v. IsToldOf lens.now root kind v) }
{
    let mut seen = Seen {
        known: IndexSet::with_hasher(alloc, lens.salt()),
        verdict: Verdict::Whole,
    };
    seen.note(lens, root, kind)?;
    let mut next = 0;
    while let Some(id) = seen.nth(next) {
        next += 1;
        let Some(object) = lens.get(id) else {
            continue;
        };
        seen.enter(lens, object)?;
    }
    Ok(seen.verdict)
}
