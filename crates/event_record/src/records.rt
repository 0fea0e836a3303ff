// The record of an event, as it will be written.
ghost use Rattle.std.specs.Prelude.{◌≡◌, ◌∷◌, ◌++◌, [], IfOk, OnOk};
ghost use Rattle.std.specs.Int.{w64, to_be_bytes};
ghost use Rattle.git_object.specs.Object.{FitOnePack};
ghost use Rattle.hub_history.specs.History.{HasShortRole, IsOfUser};
ghost use Rattle.hub_history.specs.Push.{AreWithinLimits};
ghost use Rattle.hub_history.specs.Requests.{Enter, Push, Permit, Look};
ghost use Rattle.event_record.specs.Bodies.{body_of, change_bytes, flag_byte, want_byte, IsStorable};
ghost use Rattle.event_record.specs.Writing.{Adds};

use crate::NoMemory;
use crate::writing::{put_commands, put_number, put_pack, put_repo, put_text, put_user};
use access_check::Want;
use conf_lex::{RepoName, UserName};
use git_object::ObjectList;
use hub_history::PermChange;
use record_file::{RecordBuilder, RecordGroup};
use ref_store::CommandList;
use std::alloc::Global;

// Adds the caller, and the byte that says what was asked.
fn begin(builder: &mut RecordBuilder, caller: u64, kind: u8) -> Result<(), NoMemory>
    ensures { OnOk result (Adds builder.old builder.new (to_be_bytes w64 caller ++ kind ∷ [])) }
{
    put_number(builder, caller)?;
    builder.push(kind)
}

fn want_byte(want: Want) -> u8
    ensures { result ≡ want_byte want }
{
    match want {
        Want::Read => 0,
        Want::Write => 1,
    }
}

fn put_change(builder: &mut RecordBuilder, change: &PermChange) -> Result<(), NoMemory>
    requires { HasShortRole change.now }
    ensures adds { OnOk result (Adds builder.old builder.new (change_bytes change.now)) }
    ensures user { OnOk result (IsOfUser change.now) }
{
    match change {
        PermChange::Grant { role, user } => {
            builder.push(0)?;
            put_text(builder, role.bytes())?;
            put_user(builder, user)
        }
        PermChange::Revoke { role, user } => {
            builder.push(1)?;
            put_text(builder, role.bytes())?;
            put_user(builder, user)
        }
        PermChange::List => builder.push(2),
    }
}

/// Writes an opening as the record that is being built, which may be one of a group.
pub fn write_enter(
    builder: &mut RecordBuilder,
    caller: u64,
    user: &UserName,
    repo: &RepoName,
    want: Want,
) -> Result<(), NoMemory>
    requires empty { builder.old.body ≡ [] }
    ensures body { OnOk result (builder.new ≡ record { bodies = builder.old.bodies; body = body_of caller (Enter user.now repo.now want) }) }
    ensures storable { OnOk result (IsStorable caller (Enter user.now repo.now want)) }
{
    begin(builder, caller, 1)?;
    put_user(builder, user)?;
    put_repo(builder, repo)?;
    builder.push(want_byte(want))
}

/// The record of an opening.
pub fn enter_record(
    alloc: Global,
    caller: u64,
    user: &UserName,
    repo: &RepoName,
    want: Want,
) -> Result<RecordGroup, NoMemory>
    ensures body { IfOk result (λ group. group ≡ body_of caller (Enter user.now repo.now want) ∷ []) }
    ensures storable { IfOk result (λ group. IsStorable caller (Enter user.now repo.now want)) }
{
    let mut builder = RecordBuilder::new(alloc)?;
    write_enter(&mut builder, caller, user, repo, want)?;
    builder.finish()
}

/// Writes a push after the opening at a place as the record that is being built, which may be one of a group.
/// It costs the bytes of the pack's bodies.
pub fn write_push(
    builder: &mut RecordBuilder,
    caller: u64,
    place: u64,
    pack: &ObjectList,
    commands: &CommandList,
    atomic: bool,
) -> Result<(), NoMemory>
    requires empty { builder.old.body ≡ [] }
    requires within { AreWithinLimits commands.now }
    requires fit { FitOnePack pack.now }
    ensures body { OnOk result (builder.new ≡ record { bodies = builder.old.bodies; body = body_of caller (Push place pack.now commands.now atomic) }) }
    ensures storable { OnOk result (IsStorable caller (Push place pack.now commands.now atomic)) }
{
    begin(builder, caller, 2)?;
    put_number(builder, place)?;
    builder.push(flag_byte(atomic))?;
    put_commands(builder, commands)?;
    put_pack(builder, pack)
}

/// The record of a push after the opening at a place.
pub fn push_record(
    alloc: Global,
    caller: u64,
    place: u64,
    pack: &ObjectList,
    commands: &CommandList,
    atomic: bool,
) -> Result<RecordGroup, NoMemory>
    requires within { AreWithinLimits commands.now }
    requires fit { FitOnePack pack.now }
    ensures body { IfOk result (λ group. group ≡ body_of caller (Push place pack.now commands.now atomic) ∷ []) }
    ensures storable { IfOk result (λ group. IsStorable caller (Push place pack.now commands.now atomic)) }
{
    let mut builder = RecordBuilder::new(alloc)?;
    write_push(&mut builder, caller, place, pack, commands, atomic)?;
    builder.finish()
}

fn flag_byte(flag: bool) -> u8
    ensures { result ≡ flag_byte flag }
{
    if flag { 1 } else { 0 }
}

/// Writes a change or a listing of roles as the record that is being built, which may be one of a group.
pub fn write_permit(
    builder: &mut RecordBuilder,
    caller: u64,
    user: &UserName,
    repo: &RepoName,
    change: &PermChange,
) -> Result<(), NoMemory>
    requires empty { builder.old.body ≡ [] }
    requires short { HasShortRole change.now }
    ensures body { OnOk result (builder.new ≡ record { bodies = builder.old.bodies; body = body_of caller (Permit user.now repo.now change.now) }) }
    ensures storable { OnOk result (IsStorable caller (Permit user.now repo.now change.now)) }
{
    begin(builder, caller, 3)?;
    put_user(builder, user)?;
    put_repo(builder, repo)?;
    put_change(builder, change)
}

/// The record of a change or a listing of roles.
pub fn permit_record(
    alloc: Global,
    caller: u64,
    user: &UserName,
    repo: &RepoName,
    change: &PermChange,
) -> Result<RecordGroup, NoMemory>
    requires { HasShortRole change.now }
    ensures body { IfOk result (λ group. group ≡ body_of caller (Permit user.now repo.now change.now) ∷ []) }
    ensures storable { IfOk result (λ group. IsStorable caller (Permit user.now repo.now change.now)) }
{
    let mut builder = RecordBuilder::new(alloc)?;
    write_permit(&mut builder, caller, user, repo, change)?;
    builder.finish()
}

/// The record of a listing.
pub fn look_record(alloc: Global, caller: u64, user: &UserName) -> Result<RecordGroup, NoMemory>
    ensures body { IfOk result (λ group. group ≡ body_of caller (Look user.now) ∷ []) }
    ensures storable { IfOk result (λ group. IsStorable caller (Look user.now)) }
{
    let mut builder = RecordBuilder::new(alloc)?;
    begin(&mut builder, caller, 4)?;
    put_user(&mut builder, user)?;
    builder.finish()
}
