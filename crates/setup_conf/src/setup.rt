// The conf of a new hub.
ghost use Rattle.std.specs.Prelude.{◌≡◌, IfOk};
ghost use Rattle.rule_compile.specs.Answers.{IsNoMemory};
ghost use Rattle.rule_compile.specs.Flat.{Flat};
ghost use Rattle.setup_conf.specs.Laws.{ComesTo};
ghost use Rattle.setup_conf.specs.Setup.{setup_files, setup_flat};

use base_types::{NoMemory, Text};
use conf_groups::{ConfFile, ConfKind, FileList};
use conf_lex::UserName;
use rule_compile::{Policy, PolicyFault, some_patterns_are_true};
use std::alloc::Global;

/// The files of a new hub's conf: one, by which the admin may do everything in `gitolite-admin`, and
/// everybody everything in `testing`.
pub fn setup_files(alloc: Global, admin: &UserName) -> Result<FileList, NoMemory>
    ensures { IfOk result (λ files. files ≡ setup_files admin.now) }
{
    let mut text = b"repo gitolite-admin\n    RW+     =   ".to_vec(alloc)?;
    text.extend_from_slice(admin.bytes())?;
    text.extend_from_slice(b"\n\nrepo testing\n    RW+     =   @all\n")?;
    let mut files = FileList::new(alloc);
    files.push(ConfFile {
        name: Text::of(alloc, b"gitolite.conf")?,
        text: Text::from(text),
    })?;
    Ok(files)
}

// The rules of files that have no fault.
fn compile_faultless(alloc: Global, files: &FileList) -> Result<Policy, NoMemory>
    requires { (rules : Flat) × ComesTo files.now rules }
    ensures { (rules : Flat) → ComesTo files.now rules → IfOk result (λ policy. policy ≡ rules) }
{
    // This law is called for its clause that some answers about patterns are true, so that `compile` says
    // something.
    some_patterns_are_true();
    match Policy::compile(alloc, files) {
        Ok(policy) => Ok(policy),
        Err(fault) => Err(no_memory(&fault)),
    }
}

// The one fault that such files have.
fn no_memory(fault: &PolicyFault) -> NoMemory
    requires { IsNoMemory fault.now }
{
    match fault {
        PolicyFault::Splicing(fault) if matches!(fault.kind, ConfKind::NoMemory) => NoMemory,
        _ => unreachable!(),
    }
}

/// The rules of a new hub. Its conf has no fault, so only memory can be missing.
pub fn setup_policy(alloc: Global, admin: &UserName) -> Result<Policy, NoMemory>
    ensures { IfOk result (λ policy. policy ≡ setup_flat admin.now) }
{
    // The bytes are asked for their clause that they are a user's name.
    let _rule = admin.bytes();
    let files = setup_files(alloc, admin)?;
    compile_faultless(alloc, &files)
}
