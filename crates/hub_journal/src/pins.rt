// Pins of openings for writing.
ghost use Rattle.std.specs.Prelude.{◌≡◌, IfOk};
ghost use Rattle.access_check.specs.declared.verdicts.Want.TheVariants as want;

use crate::NoMemory;
use hub::{Pin, Want};
use hub_state::HostedRepo;
use std::alloc::Global;

/// A second pin of the same opening for writing. The conf, the objects, the refs and what is known of them
/// are shared; the roles are copied.
pub fn copy_pin(alloc: Global, pin: &Pin) -> Result<Pin, NoMemory>
    requires { pin.now.pinned.want ≡ want.Write }
    ensures { IfOk result (λ copy. copy ≡ pin.now) }
{
    let wild = pin.wild().copy()?;
    let repo = pin.repo().copy()?;
    let known = pin.known().clone()?;
    let closures = pin.closures().clone()?;
    let hosted = HostedRepo::empty(alloc, wild)?.with_repo(alloc, repo, known, closures)?;
    let conf = pin.conf().clone()?;
    let user = pin.user().clone()?;
    let name = pin.repo_name().clone()?;
    Ok(Pin::new(pin.place(), user, name, Want::Write, conf, hosted))
}
