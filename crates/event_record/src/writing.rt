// Fields at the end of a record's body.
ghost use Rattle.std.specs.Prelude.{◌≡◌, ◌≤◌, ◌<◌, ◌^◌, ◌++◌, ◌∷◌, [], List, ℕ, length, OnOk, true};
ghost use Rattle.std.specs.List.{AllByRecursion, flat_map};
ghost use Rattle.std.specs.Int.{w64, to_be_bytes};
ghost use Rattle.conf_lex.specs.Names.{is_repo_name, is_user_name};
ghost use Rattle.git_object.specs.Object.{FitOnePack};
ghost use Rattle.ref_store.specs.declared.command.Command.{Command};
ghost use Rattle.event_record.specs.Fields.{text_bytes, kind_byte, command_bytes, commands_bytes, object_bytes, pack_bytes, IsId, HasIds};
ghost use Rattle.event_record.specs.Writing.{Adds};

use crate::NoMemory;
use conf_lex::{RepoName, UserName};
use git_object::{Kind, Object, ObjectId, ObjectList};
use record_file::RecordBuilder;
use ref_store::{Command, CommandList};

pub(crate) fn put_number(builder: &mut RecordBuilder, number: u64) -> Result<(), NoMemory>
    ensures { OnOk result (Adds builder.old builder.new (to_be_bytes w64 number)) }
{
    builder.extend_from_slice(&number.to_be_bytes())
}

pub(crate) fn put_text(builder: &mut RecordBuilder, text: &[u8]) -> Result<(), NoMemory>
    requires { length text.now < 2 ^ 16 }
    ensures { OnOk result (Adds builder.old builder.new (text_bytes text.now)) }
{
    builder.extend_from_slice(&(text.len() as u16).to_be_bytes())?;
    builder.extend_from_slice(text)
}

pub(crate) fn put_user(builder: &mut RecordBuilder, user: &UserName) -> Result<(), NoMemory>
    ensures adds { OnOk result (Adds builder.old builder.new (text_bytes user.now)) }
    ensures name { is_user_name user.now ≡ true }
{
    put_text(builder, user.bytes())
}

pub(crate) fn put_repo(builder: &mut RecordBuilder, repo: &RepoName) -> Result<(), NoMemory>
    ensures adds { OnOk result (Adds builder.old builder.new (text_bytes repo.now)) }
    ensures name { is_repo_name repo.now ≡ true }
{
    put_text(builder, repo.bytes())
}

// The byte that stands for a kind.
fn kind_byte(kind: Kind) -> u8
    ensures { result ≡ kind_byte kind }
{
    match kind {
        Kind::Commit => 1,
        Kind::Tree => 2,
        Kind::Blob => 3,
        Kind::Tag => 4,
    }
}

fn put_id(builder: &mut RecordBuilder, id: &ObjectId) -> Result<(), NoMemory>
    ensures adds { OnOk result (Adds builder.old builder.new id.now.bytes) }
    ensures id { IsId id.now }
{
    builder.extend_from_slice(&id.bytes)
}

fn put_command(builder: &mut RecordBuilder, command: &Command) -> Result<(), NoMemory>
    requires { length command.now.name ≤ 1024 }
    ensures adds { OnOk result (Adds builder.old builder.new (command_bytes command.now)) }
    ensures ids { OnOk result (HasIds command.now) }
{
    put_id(builder, &command.old)?;
    put_id(builder, &command.new)?;
    put_text(builder, command.name.bytes())
}

pub(crate) fn put_commands(
    builder: &mut RecordBuilder,
    commands: &CommandList,
) -> Result<(), NoMemory>
    requires few { length commands.now ≤ 10000 }
    requires short { AllByRecursion (λ (c : Command). length c.name ≤ 1024) commands.now }
    ensures adds { OnOk result (Adds builder.old builder.new (commands_bytes commands.now)) }
    ensures ids { OnOk result (AllByRecursion HasIds commands.now) }
{
    builder.extend_from_slice(&(commands.len() as u32).to_be_bytes())?;
    put_each_command(builder, commands.as_slice())
}

fn put_each_command(builder: &mut RecordBuilder, commands: &[Command]) -> Result<(), NoMemory>
    requires { AllByRecursion (λ (c : Command). length c.name ≤ 1024) commands.now }
    ensures adds { OnOk result (Adds builder.old builder.new (flat_map command_bytes commands.now)) }
    ensures ids { OnOk result (AllByRecursion HasIds commands.now) }
{
    for command in commands {
        put_command(builder, command)?;
    }
    Ok(())
}

fn put_object(builder: &mut RecordBuilder, object: &Object) -> Result<(), NoMemory>
    ensures { OnOk result (Adds builder.old builder.new (object_bytes object.now)) }
{
    let body = object.body();
    builder.push(kind_byte(object.kind()))?;
    builder.extend_from_slice(&(body.len() as u32).to_be_bytes())?;
    builder.extend_from_slice(body)
}

pub(crate) fn put_pack(builder: &mut RecordBuilder, pack: &ObjectList) -> Result<(), NoMemory>
    requires { length pack.now ≤ 100000 }
    ensures { OnOk result (Adds builder.old builder.new (pack_bytes pack.now)) }
{
    builder.extend_from_slice(&(pack.len() as u32).to_be_bytes())?;
    put_each_object(builder, pack.as_slice())
}

fn put_each_object(builder: &mut RecordBuilder, objects: &[Object]) -> Result<(), NoMemory>
    ensures { OnOk result (Adds builder.old builder.new (flat_map object_bytes objects.now)) }
{
    for object in objects {
        put_object(builder, object)?;
    }
    Ok(())
}
