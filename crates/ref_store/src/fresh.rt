// The objects of a pack that a repository lacks.
ghost use Rattle.std.specs.Prelude.{◌≡◌, ◌+◌, ◌++◌, ◌≤◌, IfOk, IfSome, length, None, Some};
ghost use Rattle.ref_store.specs.Segments.{all_of};

use crate::segments::Segments;
use base_types::NoMemory;
use git_object::Object;
use std::alloc::Global;
use std::marker::Model;

/// The objects of a pack that a repository lacks, in the order of the pack, each name once. Their bodies are
/// shared with the pack. Segments may be prepared with them.
#[derive(Drop)]
pub struct FreshObjects {
    objects: Vec<Object>,
    prepared: Option<Prepared>,
}

// The segments that a repository has, and those that it has with fresh objects behind them.
#[derive(Drop)]
struct Prepared {
    before: Segments,
    grown: Segments,
}

impl Model for FreshObjects {
    ghost use Rattle.std.specs.Prelude.{◌≡◌, ◌++◌, IfSome};
    ghost use Rattle.std.specs.Option.{option_map};
    ghost use Rattle.ref_store.specs.Fresh.{Fresh};
    ghost use Rattle.ref_store.specs.Segments.{all_of};

    ghost Value = { Fresh };

    ghost view = { λ f. record { objects = f.objects.items; before = option_map (λ p. all_of p.before) f.prepared } };

    ghost invariant = { λ f. IfSome f.prepared (λ p. all_of p.grown ≡ all_of p.before ++ f.objects.items) };
}

impl FreshObjects {
    pub(crate) fn unprepared(objects: Vec<Object>) -> FreshObjects
        ensures { result ≡ record { objects = objects.items; before = None } }
    {
        FreshObjects {
            objects,
            prepared: None,
        }
    }

    // With the segments prepared that these have with the objects behind them.
    pub(crate) fn prepared_for(
        self,
        alloc: Global,
        segments: &Segments,
    ) -> Result<FreshObjects, NoMemory>
        requires { length (all_of segments.now) + length self.objects ≤ 4294967295 }
        ensures { IfOk result (λ f. f ≡ record { objects = self.objects; before = Some (all_of segments.now) }) }
    {
        let FreshObjects {
            objects,
            prepared: _,
        } = self;
        let grown = segments.with(alloc, &objects)?;
        let before = segments.copy()?;
        Ok(FreshObjects {
            objects,
            prepared: Some(Prepared { before, grown }),
        })
    }

    // The segments with these objects behind them that were prepared, which are shared.
    pub(crate) fn segments_for(&self, segments: &Segments) -> Result<Option<Segments>, NoMemory>
        requires { IfSome self.now.before (λ before. before ≡ all_of segments.now) }
        ensures { IfOk result (λ found. IfSome found (λ s. all_of s ≡ all_of segments.now ++ self.now.objects)) }
    {
        match &self.prepared {
            Some(prepared) => Ok(Some(prepared.grown.copy()?)),
            None => Ok(None),
        }
    }

    // The segments with these objects behind them: those that were prepared, or new ones.
    pub(crate) fn grown(self, alloc: Global, segments: &Segments) -> Result<Segments, NoMemory>
        requires few { length (all_of segments.now) + length self.objects ≤ 4294967295 }
        requires prepared { IfSome self.before (λ before. before ≡ all_of segments.now) }
        ensures { IfOk result (λ s. all_of s ≡ all_of segments.now ++ self.objects) }
    {
        let FreshObjects { objects, prepared } = self;
        match prepared {
            Some(Prepared { before: _, grown }) => Ok(grown),
            None => Ok(segments.with(alloc, &objects)?),
        }
    }
}
