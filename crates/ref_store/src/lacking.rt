// What a pack holds that a repository lacks.
ghost use Rattle.std.specs.Prelude.{◌≡◌, ◌++◌, ◌↔◌, IfOk, IsTrue};
ghost use Rattle.ref_store.specs.Objects.{HasNamesOnce};
ghost use Rattle.ref_store.specs.Lacking.{TellsOfPack};
ghost use Rattle.ref_store.specs.Segments.{all_of};

use crate::lens::Lens;
use crate::segments::Segments;
use base_types::NoMemory;
use git_object::{Object, ObjectId};
use std::alloc::Global;

/// The objects to add, or two that differ and have one name.
#[derive(Drop)]
pub enum Lacking {
    Fresh(Vec<Object>),
    Differs {
        id: ObjectId,
        kept: usize,
        given: usize,
    },
}

/// Goes through a pack beside the objects that are there, each of its objects beside the first of its name.
/// The lens shows both.
pub fn find_lacking(
    alloc: Global,
    lens: &Lens,
    kept: &Segments,
    pack: &[Object],
) -> Result<Lacking, NoMemory>
    requires names { HasNamesOnce (all_of kept.now) }
    requires lens { lens.now ≡ all_of kept.now ++ pack.now }
    ensures { IfOk result (λ l. TellsOfPack (all_of kept.now) pack.now l) }
{
    let mut fresh = Vec::new(alloc);
    for i in 0..pack.len() {
        let object = &pack[i];
        let id = object.name();
        let given = kept.len() + i;
        let Some((first, before)) = lens.before(id, given) else {
            fresh.push(object.clone()?)?;
            continue;
        };
        if same_object(object, before) {
            continue;
        }
        return Ok(Lacking::Differs {
            id,
            kept: first,
            given,
        });
    }
    Ok(Lacking::Fresh(fresh))
}

fn same_object(a: &Object, b: &Object) -> bool
    ensures { IsTrue result ↔ (a.now ≡ b.now) }
{
    a.kind() == b.kind() && a.body() == b.body()
}
