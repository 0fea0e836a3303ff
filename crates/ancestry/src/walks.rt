// Walks among the same objects.
ghost use Rattle.std.specs.Prelude.{◌≡◌, [], false, IfOk, IfSome, OnOk, Some};
ghost use Rattle.std.specs.Option.{option_copied, option_map_or};
ghost use Rattle.git_object.specs.Object.{links_of, parents_of};
ghost use Rattle.ref_store.specs.Objects.{first_named};
ghost use Rattle.ancestry.specs.Generations.{HasGeneration, IsAfter};
ghost use Rattle.ancestry.specs.Verdict.{IsToldOf, IsToldOfAll};
ghost use Rattle.ancestry.specs.Walk.{links_at, wanted_by};
ghost use Rattle.ancestry.specs.Wholeness.{TellsOfWholeness};

use crate::known::{Findings, Known, Notes};
use crate::seen;
use crate::verdict::Verdict;
use crate::wholeness::Wholeness;
use base_types::NoMemory;
use git_object::{Kind, Object, ObjectId};
use indexmap::IndexSet;
use ref_store::Lens;
use std::alloc::Global;
use std::marker::Model;

/// Walks among the same objects. Each object that isn't known yet is entered once by a walker, whatever it is
/// asked and whether all is whole or not, and the links of what is entered are looked at twice, the parents
/// of a commit once more. A blob is never entered. Only where links lead in a circle does each question walk
/// by itself, along all that it meets.
#[derive(Drop)]
pub struct Walks<'a> {
    alloc: Global,
    lens: &'a Lens,
    known: Known,
    notes: Notes,
}

impl<'a> Model for Walks<'a> {
    ghost use Rattle.std.specs.Prelude.{List};
    ghost use Rattle.git_object.specs.Content.{Content};
    ghost use Rattle.ancestry.specs.Known.{AreKnown, AreNoted};

    ghost Value = { List Content };

    ghost view = { λ w. w.lens.now };

    ghost invariant = { λ w. AreKnown w.lens.now w.known × AreNoted w.lens.now w.notes };
}

impl<'a> Walks<'a> {
    ghost use Rattle.ancestry.specs.Known.{AreFound, AreKnown, IsRight};

    pub fn new(alloc: Global, lens: &'a Lens) -> Walks<'a>
        ensures { result ≡ lens.now }
    {
        Walks::knowing(alloc, lens, Known::nothing(alloc))
    }

    /// A walker that need not enter what earlier walks found out.
    pub fn knowing(alloc: Global, lens: &'a Lens, known: Known) -> Walks<'a>
        requires { AreKnown lens.now known }
        ensures { result ≡ lens.now }
    {
        Walks {
            alloc,
            lens,
            known,
            notes: Notes::none(alloc, lens.salt()),
        }
    }

    /// What the walks found out, apart from what was known.
    pub fn into_findings(self) -> Result<Findings, NoMemory>
        ensures { IfOk result (AreFound self.entry) }
    {
        let Walks {
            alloc,
            lens: _,
            known: _,
            notes,
        } = self;
        notes.into_findings(alloc)
    }

    /// Whether all that an id leads to is there and of the kind wanted; of the id itself this kind is wanted,
    /// or any.
    pub fn whole(&mut self, id: ObjectId, kind: Option<Kind>) -> Wholeness
        ensures told { TellsOfWholeness self.old id kind result }
        ensures lens { self.new ≡ self.old }
    {
        let Ok(verdict) = self.judge(id, kind) else {
            return Wholeness::NoMemory;
        };
        match verdict {
            Verdict::Whole => Wholeness::Whole,
            Verdict::Missing(id) => Wholeness::Missing(id),
            Verdict::WrongKind(id) => Wholeness::WrongKind(id),
        }
    }

    // What is told of an id and all that it leads to. Where links lead in a circle it isn't settled, and is
    // walked from plainly.
    fn judge(&mut self, id: ObjectId, kind: Option<Kind>) -> Result<Verdict, NoMemory>
        ensures told { IfOk result (λ v. IsToldOf self.old id kind v) }
        ensures lens { self.new ≡ self.old }
    {
        self.settle(id)?;
        if let Some(verdict) = self.verdict_of(id, kind) {
            return Ok(verdict);
        }
        seen::walk(self.alloc, self.lens, id, kind)
    }

    /// What is told of all that the links of an object lead to, where that is known already and no walk is
    /// made for it.
    pub fn settled(&self, id: ObjectId) -> Option<Verdict>
        ensures { IfSome result (IsRight self.now id) }
    {
        match self.notes.get(id) {
            Some(verdict) => Some(verdict),
            None => self.known.get(id),
        }
    }

    // What is told of an id and all that it leads to; nothing where its links aren't settled.
    fn verdict_of(&self, id: ObjectId, wanted: Option<Kind>) -> Option<Verdict>
        ensures { IfSome result (IsToldOf self.now id wanted) }
    {
        let object = self.lens.get(id);
        let alone = Verdict::alone(object, id, wanted);
        if !has_links(object) {
            return Some(alone);
        }
        match self.settled(id) {
            Some(behind) => Some(alone.worse(behind)),
            None => None,
        }
    }

    // What is told of all links of an object; nothing where one of them isn't settled.
    fn verdict_of_links(&self, object: &Object) -> Option<Verdict>
        ensures { IfSome result (IsToldOfAll self.now (wanted_by (links_of object.now.kind object.now.body))) }
    {
        let mut verdict = Verdict::Whole;
        for (to, wanted) in object.links() {
            match self.verdict_of(to, Some(wanted)) {
                Some(behind) => verdict = verdict.worse(behind),
                None => return None,
            }
        }
        Some(verdict)
    }

    // The generation of an object behind which all is whole, where it is known already.
    fn generation(&self, id: ObjectId) -> Option<u64>
        ensures { IfSome result (HasGeneration self.now id) }
    {
        match self.notes.generation(id) {
            Some(generation) => Some(generation),
            None => self.known.generation(id),
        }
    }

    // The generation of an object, by those of its parents; nothing where one of theirs isn't known.
    fn generation_of(&self, object: &Object) -> Option<u64>
        ensures { IfSome result (IsAfter self.now (parents_of object.now.kind object.now.body)) }
    {
        let mut generation: u64 = 0;
        for parent in object.parents() {
            let Some(before) = self.generation(parent) else {
                return None;
            };
            let Some(after) = before.checked_add(1) else {
                return None;
            };
            generation = generation.max(after);
        }
        Some(generation)
    }

    // Adds the links of an object that aren't settled to what is to be done.
    fn add_links(&self, object: &Object, work: &mut Vec<ObjectId>) -> Result<(), NoMemory> {
        for (to, _) in object.links() {
            if has_links(self.lens.get(to)) && self.settled(to).is_none() {
                work.push(to)?;
            }
        }
        Ok(())
    }

    // Notes what is told of all that the links of an object lead to, and its generation.
    fn put(&mut self, id: ObjectId, object: &Object, verdict: Verdict) -> Result<(), NoMemory>
        requires object { first_named self.old id ≡ Some object.now }
        requires verdict { IsRight self.old id verdict }
        ensures { self.new ≡ self.old }
    {
        let generation = self.generation_of(object);
        self.notes.insert(id, verdict, generation)
    }

    // Settles an id and all that it leads to, links before what they are links of. An id comes up twice where
    // a link of it isn't settled: when it is entered, and again when its links are settled. Where it comes up
    // again before that, links lead in a circle, and this gives up.
    fn settle(&mut self, root: ObjectId) -> Result<(), NoMemory>
        ensures { self.new ≡ self.old }
    {
        let lens = self.lens;
        let mut entered = IndexSet::with_hasher(self.alloc, lens.salt());
        let mut work = Vec::new(self.alloc);
        work.push(root)?;
        while let Some(id) = work.pop() {
            if self.settled(id).is_some() {
                continue;
            }
            let Some(object) = lens.get(id) else {
                continue;
            };
            if let Some(verdict) = self.verdict_of_links(object) {
                self.put(id, object, verdict)?;
                continue;
            }
            let is_new = entered.insert(id)?;
            // So many fit into memory, which bounds how often the work grows.
            let _entered = entered.len();
            if !is_new {
                return Ok(());
            }
            work.push(id)?;
            self.add_links(object, &mut work)?;
        }
        Ok(())
    }
}

// Whether there is such an object, and it may have links.
fn has_links(object: Option<&Object>) -> bool
    ensures { result ≡ false → option_map_or (λ o. wanted_by (links_of o.kind o.body)) (option_copied object.entry) [] ≡ [] }
{
    match object {
        Some(object) => object.kind() != Kind::Blob,
        None => false,
    }
}
