// Answers on files, lines and groups.
use crate::questions::{ConfQuestion, Group};
use crate::stop::Stop;
use crate::words::{push_line, push_number, push_word};
use access_check::{NoMemory, Text};
use conf_groups::{
    ConfFault, ConfKind, FileList, Groups, Placed, PlacedLine, PlacedList, Scope, TextList, expand,
    members, members_of, read_groups,
};
use std::alloc::Global;

/// Prints the answer, or the fault of files that can't be spliced.
pub(crate) fn answer_on_conf(
    alloc: Global,
    out: &mut Vec<u8>,
    files: &FileList,
    question: ConfQuestion<'_>,
) -> Result<(), Stop> {
    match expand(alloc, files) {
        Ok(placed) => Ok(answer_on_lines(alloc, out, &placed, question)?),
        Err(fault) => push_fault(alloc, out, &fault),
    }
}

fn push_fault(alloc: Global, out: &mut Vec<u8>, fault: &ConfFault) -> Result<(), Stop> {
    if matches!(fault.kind, ConfKind::NoMemory) {
        return Err(Stop::OutOfMemory);
    }
    push_line(out, fault.text(alloc)?.bytes())?;
    Ok(())
}

fn answer_on_lines(
    alloc: Global,
    out: &mut Vec<u8>,
    placed: &PlacedList,
    question: ConfQuestion<'_>,
) -> Result<(), NoMemory> {
    match question {
        ConfQuestion::Lines => push_lines(alloc, out, placed),
        ConfQuestion::Members(group) => push_by_index(alloc, out, placed, group),
        ConfQuestion::Walk(group) => push_by_walk(alloc, out, placed, group),
    }
}

fn push_lines(alloc: Global, out: &mut Vec<u8>, placed: &PlacedList) -> Result<(), NoMemory> {
    for item in placed.as_slice() {
        match item {
            Placed::EndOfBlock => push_line(out, b"end of block")?,
            Placed::Line(line) => push_placed(alloc, out, line)?,
        }
    }
    Ok(())
}

// A file, the number of a line, and its subconf.
fn push_placed(alloc: Global, out: &mut Vec<u8>, line: &PlacedLine) -> Result<(), NoMemory> {
    out.extend_from_slice(line.file.bytes())?;
    push_number(alloc, out, line.line)?;
    push_scope(out, &line.scope)?;
    push_line(out, b"")
}

fn push_scope(out: &mut Vec<u8>, scope: &Scope) -> Result<(), NoMemory> {
    let Scope::Sub(name) = scope else {
        return Ok(());
    };
    push_word(out, b"subconf")?;
    push_word(out, name.bytes())
}

fn scope_of(alloc: Global, subconf: Option<&[u8]>) -> Result<Scope, NoMemory> {
    match subconf {
        Some(name) => Ok(Scope::Sub(Text::of(alloc, name)?)),
        None => Ok(Scope::Main),
    }
}

fn push_by_index(
    alloc: Global,
    out: &mut Vec<u8>,
    placed: &PlacedList,
    group: Group<'_>,
) -> Result<(), NoMemory> {
    let groups = read_groups(alloc, placed)?;
    push_members_of(alloc, out, &groups, group)
}

fn push_members_of(
    alloc: Global,
    out: &mut Vec<u8>,
    groups: &Groups,
    group: Group<'_>,
) -> Result<(), NoMemory> {
    let scope = scope_of(alloc, group.subconf)?;
    let members = members_of(alloc, groups, group.name, &scope, group.before)?;
    push_members(out, members.as_ref())
}

fn push_by_walk(
    alloc: Global,
    out: &mut Vec<u8>,
    placed: &PlacedList,
    group: Group<'_>,
) -> Result<(), NoMemory> {
    let scope = scope_of(alloc, group.subconf)?;
    let members = members(alloc, placed, group.name, &scope, group.before)?;
    push_members(out, members.as_ref())
}

fn push_members(out: &mut Vec<u8>, members: Option<&TextList>) -> Result<(), NoMemory> {
    let Some(members) = members else {
        return push_line(out, b"no group");
    };
    out.extend_from_slice(b"members")?;
    push_texts(out, members.as_slice())?;
    push_line(out, b"")
}

/// Texts, and a space before each.
pub(crate) fn push_texts(out: &mut Vec<u8>, texts: &[Text]) -> Result<(), NoMemory> {
    for text in texts {
        push_word(out, text.bytes())?;
    }
    Ok(())
}
