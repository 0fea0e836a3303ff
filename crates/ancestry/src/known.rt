// What walkers find out, and keep for later ones.
ghost use Rattle.std.specs.Prelude.{◌≡◌, IfOk, IfSome, List, OnOk};
ghost use Rattle.git_object.specs.Content.{Content};

use crate::layers::{Layer, Layers};
use crate::table::Table;
use crate::verdict::Verdict;
use base_types::NoMemory;
use git_object::ObjectId;
use ref_store::Salt;
use std::alloc::{AllocError, Global};

/// What a walker has found out so far.
#[derive(Drop)]
pub struct Notes {
    whole: Table<u64>,
    amiss: Table<Verdict>,
}

impl Notes {
    ghost use Rattle.ancestry.specs.Generations.{HasGeneration};
    ghost use Rattle.ancestry.specs.Known.{AreFound, AreNoted, IsRight};

    pub fn none(alloc: Global, salt: Salt) -> Notes
        ensures { (objects : List Content) → AreNoted objects result }
    {
        Notes {
            whole: Table::new(alloc, salt),
            amiss: Table::new(alloc, salt),
        }
    }

    /// What is told of all that the links of an object lead to, where it was found out.
    pub fn get(&self, id: ObjectId) -> Option<Verdict>
        ensures { (objects : List Content) → AreNoted objects self.now → IfSome result (IsRight objects id) }
    {
        if let Some(_generation) = self.whole.get(id) {
            return Some(Verdict::Whole);
        }
        match self.amiss.get(id) {
            Some(verdict) => Some(verdict),
            None => None,
        }
    }

    /// The generation of an object behind which all is whole, where it was found out.
    pub fn generation(&self, id: ObjectId) -> Option<u64>
        ensures { (objects : List Content) → AreNoted objects self.now → IfSome result (HasGeneration objects id) }
    {
        match self.whole.get(id) {
            Some(generation) => Some(generation),
            None => None,
        }
    }

    /// Notes what is told of all that the links of an object lead to, and its generation. A verdict without a
    /// generation, which is found out of no object whose parents are among its links, is kept with those that
    /// are forgotten as objects come.
    pub fn insert(
        &mut self,
        id: ObjectId,
        verdict: Verdict,
        generation: Option<u64>,
    ) -> Result<(), NoMemory>
        ensures { (objects : List Content) → AreNoted objects self.old → IsRight objects id verdict → IfSome generation (HasGeneration objects id) → AreNoted objects self.new }
    {
        match (verdict, generation) {
            (Verdict::Whole, Some(generation)) => {
                self.whole.insert(id, generation)?;
                Ok(())
            }
            _ => {
                self.amiss.insert(id, verdict)?;
                Ok(())
            }
        }
    }

    /// All of it, from when on it doesn't change.
    pub fn into_findings(self, alloc: Global) -> Result<Findings, NoMemory>
        ensures { (objects : List Content) → AreNoted objects self → IfOk result (AreFound objects) }
    {
        let Notes { whole, amiss } = self;
        Ok(Findings {
            whole: Layer::of(alloc, whole)?,
            amiss: Layer::of(alloc, amiss)?,
        })
    }
}

/// What one walker found out.
#[derive(Drop)]
pub struct Findings {
    whole: Layer<u64>,
    amiss: Layer<Verdict>,
}

/// What earlier walks found out about the objects of a repository. Clones share it.
///
/// That all is whole that an object leads to stays known as objects come, and so does its generation, which
/// is kept with it. What is amiss is known until an object comes.
#[derive(Drop)]
pub struct Known {
    whole: Layers<u64>,
    amiss: Layers<Verdict>,
}

impl Known {
    ghost use Rattle.ancestry.specs.Generations.{HasGeneration, generation_in};
    ghost use Rattle.ancestry.specs.Known.{AreFound, AreKnown, Extends, IsRight};

    pub fn nothing(alloc: Global) -> Known
        ensures { (objects : List Content) → AreKnown objects result }
    {
        Known {
            whole: Layers::none(alloc),
            amiss: Layers::none(alloc),
        }
    }

    // What is told of all that the links of an object lead to, where it is known. It costs a look-up in each
    // of a few tables.
    pub(crate) fn get(&self, id: ObjectId) -> Option<Verdict>
        ensures { (objects : List Content) → AreKnown objects self.now → IfSome result (IsRight objects id) }
    {
        if let Some(_generation) = self.whole.get(id) {
            return Some(Verdict::Whole);
        }
        match self.amiss.get(id) {
            Some(verdict) => Some(verdict),
            None => None,
        }
    }

    // The generation of an object behind which all is whole, where it is known. It costs a look-up in each of
    // a few tables.
    pub(crate) fn generation(&self, id: ObjectId) -> Option<u64>
        ensures is { result ≡ generation_in self.now id }
        ensures right { (objects : List Content) → AreKnown objects self.now → IfSome result (HasGeneration objects id) }
    {
        match self.whole.get(id) {
            Some(generation) => Some(generation),
            None => None,
        }
    }

    /// The same, and what a walker found out among the same objects. Over many calls it costs what was found
    /// out times the logarithm of what is known, and in one call it may cost all that is known.
    pub fn with(&self, alloc: Global, findings: &Findings) -> Result<Known, NoMemory>
        ensures { (objects : List Content) → AreKnown objects self.now → AreFound objects findings.now → IfOk result (AreKnown objects) }
    {
        Ok(Known {
            whole: self.whole.with(alloc, &findings.whole)?,
            amiss: self.amiss.with(alloc, &findings.amiss)?,
        })
    }

    /// What stays known where objects come. It costs a few shares.
    pub fn grown(&self, alloc: Global) -> Result<Known, NoMemory>
        ensures { (fewer more : List Content) → Extends fewer more → AreKnown fewer self.now → IfOk result (AreKnown more) }
    {
        Ok(Known {
            whole: self.whole.clone()?,
            amiss: Layers::none(alloc),
        })
    }

    /// What stays known where objects come, and what of that a walker found out among some of them. It costs
    /// a few shares, and nothing is copied; only where this was done many times, and nothing was joined in
    /// between, it costs what `with` does.
    pub fn grown_with(&self, alloc: Global, findings: &Findings) -> Result<Known, NoMemory>
        ensures { (fewer among more : List Content) → Extends fewer more → Extends among more → AreKnown fewer self.now → AreFound among findings.now → IfOk result (AreKnown more) }
    {
        Ok(Known {
            whole: self.whole.beside(alloc, &findings.whole)?,
            amiss: Layers::none(alloc),
        })
    }
}

impl Clone for Known {
    ghost is_clone = { λ known copy. copy ≡ known };

    fn clone(&self) -> Result<Known, AllocError> {
        Ok(Known {
            whole: self.whole.clone()?,
            amiss: self.amiss.clone()?,
        })
    }
}
