// The commands and the objects of a push.
ghost use Rattle.std.specs.Prelude.{◌≡◌, length};
ghost use Rattle.event_record.specs.Reading.{Gives, command_at, object_at, items_at, command_within, no_cost, body_size, commands_at, pack_at};

use crate::BodyFault;
use crate::fields::{bytes_at, id_at, kind_at, text_at, u32_at};
use base_types::{ItemList, Text};
use git_object::{MAX_BODY, ObjFault, Object, ObjectList};
use ref_store::{Command, CommandList};
use std::alloc::Global;

// How many bytes the text of a ref has at most.
const MAX_REF: usize = 1024;

// How many commands a push has at most.
const MAX_COMMANDS: u32 = 10_000;

// How many objects a pack has at most.
const MAX_OBJECTS: u32 = 100_000;

// How many bytes the bodies of a pack have together at most.
const MAX_BYTES: usize = 268_435_456;

#[tactic(auto, unfolding(crate::specs::Reading::command_at))]
fn command_at(alloc: Global, bytes: &[u8]) -> Result<(Command, &[u8]), BodyFault>
    ensures { Gives (λ x. (x.0, x.1.now)) result (command_at bytes.now) }
{
    let (old, rest) = id_at(bytes)?;
    let (new, rest) = id_at(rest)?;
    let (name, rest) = text_at(MAX_REF, rest)?;
    let name = Text::of(alloc, name)?;
    Ok((Command { old, new, name }, rest))
}

// An object whose body has at most so many bytes.
#[tactic(auto, unfolding(crate::specs::Reading::object_at))]
fn object_at(alloc: Global, most: usize, bytes: &[u8]) -> Result<(Object, &[u8]), BodyFault>
    ensures { Gives (λ x. (x.0, x.1.now)) result (object_at most bytes.now) }
{
    let (kind, rest) = kind_at(bytes)?;
    let (size, rest) = u32_at(rest)?;
    let size = size as usize;
    if most < size {
        return Err(BodyFault::BadBody);
    }
    if MAX_BODY < size {
        return Err(BodyFault::BadBody);
    }
    let (body, rest) = bytes_at(size, rest)?;
    match Object::parse(alloc, kind, body) {
        Ok(object) => Ok((object, rest)),
        Err(ObjFault::NoMemory) => Err(BodyFault::NoMemory),
        Err(_) => Err(BodyFault::BadBody),
    }
}

fn command_list(alloc: Global, count: u32, bytes: &[u8]) -> Result<(CommandList, &[u8]), BodyFault>
    ensures { Gives (λ x. (x.0, x.1.now)) result (items_at command_within no_cost count 0 bytes.now) }
{
    let mut commands = ItemList::new(alloc);
    let mut rest = bytes;
    for _ in 0..count {
        let (command, after) = command_at(alloc, rest)?;
        commands.push(command)?;
        rest = after;
    }
    Ok((commands, rest))
}

fn object_list(alloc: Global, count: u32, bytes: &[u8]) -> Result<(ObjectList, &[u8]), BodyFault>
    ensures { Gives (λ x. (x.0, x.1.now)) result (items_at object_at body_size count 268435456 bytes.now) }
{
    let mut objects = ItemList::new(alloc);
    let mut left = MAX_BYTES;
    let mut rest = bytes;
    for _ in 0..count {
        let (object, after) = object_at(alloc, left, rest)?;
        left = left.saturating_sub(object.body().len());
        objects.push(object)?;
        rest = after;
    }
    Ok((objects, rest))
}

#[tactic(auto, unfolding(crate::specs::Reading::commands_at))]
pub(crate) fn commands_at(alloc: Global, bytes: &[u8]) -> Result<(CommandList, &[u8]), BodyFault>
    ensures { Gives (λ x. (x.0, x.1.now)) result (commands_at bytes.now) }
{
    let (count, rest) = u32_at(bytes)?;
    if MAX_COMMANDS < count {
        return Err(BodyFault::BadBody);
    }
    command_list(alloc, count, rest)
}

#[tactic(auto, unfolding(crate::specs::Reading::pack_at))]
pub(crate) fn pack_at(alloc: Global, bytes: &[u8]) -> Result<(ObjectList, &[u8]), BodyFault>
    ensures { Gives (λ x. (x.0, x.1.now)) result (pack_at bytes.now) }
{
    let (count, rest) = u32_at(bytes)?;
    if MAX_OBJECTS < count {
        return Err(BodyFault::BadBody);
    }
    object_list(alloc, count, rest)
}
