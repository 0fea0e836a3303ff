// Where two trees differ, by where each differs from a third.
ghost use Rattle.std.specs.Prelude.{◌≡◌, IfOk, List, OnOk, Some, map};
ghost use Rattle.git_object.specs.Tree.{Entry};
ghost use Rattle.vref.specs.Differences.{AreDifferences, new_entry, new_of, old_of};
ghost use Rattle.vref.specs.Rows.{entry_named};
ghost use Rattle.vref.specs.Through.{HasSides, first_entry, turned};

use crate::differences::{Difference, Sides, sift_names};
use base_types::NoMemory;
use std::alloc::Global;
use std::collections::BTreeMap;

/// The names at which the first of three trees differs from the last, by those at which the first differs
/// from the second, and the second from the last. It costs what the two lists have, however much the trees
/// have.
pub fn differences_through<'a>(
    alloc: Global,
    one: &[Difference<'a>],
    other: &[Difference<'a>],
) -> Result<Vec<Difference<'a>>, NoMemory>
    ensures { (first second last : List Entry) → AreDifferences first second one.now → AreDifferences second last other.now → IfOk result (λ list. AreDifferences first last list.items) }
{
    let mut names = BTreeMap::new(alloc);
    add_differences(&mut names, one)?;
    add_differences(&mut names, other)?;
    let list = sift_names(alloc, names)?;
    Ok(list)
}

// Puts what is there last in place of what was there before, under the name of each difference.
fn add_differences<'a>(
    names: &mut BTreeMap<&'a [u8], Sides<'a>>,
    list: &[Difference<'a>],
) -> Result<(), NoMemory>
    ensures { (first second last : List Entry) → HasSides (entry_named first) (entry_named second) names.old → AreDifferences second last list.now → OnOk result (HasSides (entry_named first) (entry_named last) names.new) }
{
    for found in list {
        let known = names.get(&found.name).copied();
        names.insert(found.name, sides_behind(known, found))?;
    }
    Ok(())
}

// What is under the name of a difference, behind what is known of that name.
fn sides_behind<'a>(known: Option<Sides<'a>>, found: &Difference<'a>) -> Sides<'a>
    ensures old { old_of (Some result) ≡ first_entry known.entry found.now }
    ensures new { new_of (Some result) ≡ new_entry found.now }
{
    match known {
        Some(sides) => Sides {
            old: sides.old,
            new: found.new,
        },
        None => Sides {
            old: found.old,
            new: found.new,
        },
    }
}

/// Where the second tree differs from the first, by where the first differs from the second.
pub fn turned_differences<'a>(
    alloc: Global,
    list: &[Difference<'a>],
) -> Result<Vec<Difference<'a>>, NoMemory>
    ensures { (old new : List Entry) → AreDifferences old new list.now → IfOk result (λ back. AreDifferences new old back.items) }
{
    let mut back = Vec::new(alloc);
    for found in list {
        back.push(turned(found))?;
    }
    Ok(back)
}

fn turned<'a>(found: &Difference<'a>) -> Difference<'a>
    ensures { result ≡ turned found.now }
{
    Difference {
        name: found.name,
        old: found.new,
        new: found.old,
    }
}
