// What a fetch sends: along all links.
ghost use Rattle.std.specs.Prelude.{IfOk, take};
ghost use Rattle.ancestry.specs.Closures.{AreClosures};
ghost use Rattle.ancestry.specs.Sent.{AreSent};

use crate::closing::closed;
use crate::closures::Closures;
use crate::front::Front;
use crate::known::Known;
use crate::run_sets::outside;
use crate::runs::Runs;
use base_types::NoMemory;
use git_object::ObjectId;
use ref_store::{Repo, Salt};
use std::alloc::Global;

/// The places, in order, of those objects among the first so many that links reach from the wants and not
/// from the haves. A want or a have need be no object, and not all that it leads to need be there. It costs
/// what is reached from the haves, but for what is behind the closures that are known, what is sent, and the
/// runs of those closures. Which closures are known, and what is known to be whole, changes nothing but that.
pub fn reach(
    alloc: Global,
    repo: &Repo,
    first_k: usize,
    closures: &Closures,
    known: &Known,
    wants: &[ObjectId],
    haves: &[ObjectId],
) -> Result<Vec<u32>, NoMemory>
    requires { AreClosures (take first_k repo.now.objects) closures.now }
    ensures { IfOk result (λ places. AreSent (take first_k repo.now.objects) wants.now haves.now places.items) }
{
    // `count` is called for its clause that no two objects have one name, which the proof cites.
    let _count = repo.count();
    let asked = Salt::of_ids(wants).joined(Salt::of_ids(haves));
    let salt = asked.joined(repo.salt());
    let front = Front::new(repo, first_k);
    let none = Runs::none(alloc);
    let had = closed(alloc, salt, &front, closures, known, &none, haves)?;
    let wanted = closed(alloc, salt, &front, closures, known, &had, wants)?;
    outside(alloc, &wanted, &had)
}
