// The rules that the conf at a commit comes to.
ghost use Rattle.policy_swap.specs.Compile.{TellsOfPolicy};
ghost use Rattle.policy_swap.specs.Conf.{conf_tree};

use crate::conf::conf_files;
use git_object::ObjectId;
use ref_store::Lens;
use rule_compile::{Policy, PolicyFault};
use std::alloc::Global;

/// The rules that the conf at a commit comes to, or the first fault of its files or of their lines. It costs
/// what `conf_files` and `Policy::compile` do.
pub fn compile_at(alloc: Global, lens: &Lens, commit: ObjectId) -> Result<Policy, PolicyFault>
    ensures { TellsOfPolicy lens.now (conf_tree lens.now commit) result }
{
    match conf_files(alloc, lens, commit) {
        Ok(files) => Policy::compile(alloc, &files),
        Err(fault) => Err(PolicyFault::Splicing(fault)),
    }
}
