// Members of groups, by scopes and places.
ghost use Rattle.std.specs.Prelude.{◌≡◌, ◌&&◌, nat_lt, IfOk, OnOk};
ghost use Rattle.std.specs.Prelude.{List};
ghost use Rattle.conf_groups.specs.Groups.{members_before, sees};
ghost use Rattle.conf_groups.specs.Tables.{groups_of, lines_counted, lines_of, meanings, members_by, with_group_line, with_placed, with_word};
ghost use Rattle.conf_groups.specs.declared.placed.Placed.{Placed};

use crate::distinct::Distinct;
use crate::placed::{Placed, PlacedList, Scope};
use base_types::{ItemList, NameMap, NoMemory, Text};
use conf_lex::{Statement, TextList};
use std::alloc::Global;

/// A group line: its place among what a conf is spliced to, its scope, and the members that it gives the
/// group, which are its words, with the members of a group in place of a group word.
#[derive(Drop)]
pub struct GroupLine {
    pub place: usize,
    pub scope: Scope,
    pub members: TextList,
}

/// The lines of each group, in order, by the group's name, which begins with `@`.
pub type Groups = NameMap<ItemList<GroupLine>>;

/// The groups of a conf, in one pass. `members_of` asks them.
///
/// It costs what the members of all group lines come to, once for each line.
pub fn read_groups(alloc: Global, placed: &PlacedList) -> Result<Groups, NoMemory>
    ensures { IfOk result (λ groups. groups ≡ groups_of placed.now) }
{
    let mut groups = Groups::new(alloc);
    for (place, statement) in placed.as_slice().iter().enumerate() {
        add_placed(alloc, &mut groups, place, statement)?;
    }
    Ok(groups)
}

/// The members that a scope sees of a group by the lines before a place, or nothing where no such line names
/// the group. The group's name begins with `@`. It costs the lines of that group.
#[tactic(auto, using(crate::proofs::TableLemmas::table_tells))]
pub fn members_of(
    alloc: Global,
    groups: &Groups,
    group: &[u8],
    scope: &Scope,
    before: usize,
) -> Result<Option<TextList>, NoMemory>
    ensures { (placed : List Placed) → groups.now ≡ groups_of placed → IfOk result (λ members. members ≡ members_before placed group.now scope.now before) }
{
    let name = Text::of(alloc, group)?;
    members_by(alloc, lines_named(groups, &name), scope, before)
}

/// The same, of a conf whose groups aren't at hand. It goes through the whole conf.
pub fn members(
    alloc: Global,
    placed: &PlacedList,
    group: &[u8],
    scope: &Scope,
    before: usize,
) -> Result<Option<TextList>, NoMemory>
    ensures { IfOk result (λ members. members ≡ members_before placed.now group.now scope.now before) }
{
    let groups = read_groups(alloc, placed)?;
    members_of(alloc, &groups, group, scope, before)
}

fn is_seen(scope: &Scope, from: &Scope) -> bool
    ensures { result ≡ sees scope.now from.now }
{
    match (scope, from) {
        (_, Scope::Main) => true,
        (Scope::Main, Scope::Sub(_)) => false,
        (Scope::Sub(own), Scope::Sub(other)) => own.bytes() == other.bytes(),
    }
}

fn counts(line: &GroupLine, scope: &Scope, before: usize) -> bool
    ensures { result ≡ (nat_lt line.now.place before && sees scope.now line.now.scope) }
{
    line.place < before && is_seen(scope, &line.scope)
}

/// The lines of a group.
fn lines_named<'a>(groups: &'a Groups, name: &Text) -> &'a [GroupLine]
    ensures { result.now ≡ lines_of groups.now name.now }
{
    match groups.get(name) {
        Some(lines) => lines.as_slice(),
        None => &[],
    }
}

/// The members that a scope sees, before a place, of a group with these lines.
fn members_by(
    alloc: Global,
    lines: &[GroupLine],
    scope: &Scope,
    before: usize,
) -> Result<Option<TextList>, NoMemory>
    ensures { IfOk result (λ members. members ≡ members_by lines.now scope.now before) }
{
    let mut members: Option<Distinct> = None;
    for line in lines {
        if !counts(line, scope, before) {
            continue;
        }
        let known = match members {
            Some(known) => known,
            None => Distinct::new(alloc),
        };
        members = Some(known.with_all(line.members.as_slice())?);
    }
    match members {
        Some(members) => Ok(Some(members.into_list())),
        None => Ok(None),
    }
}

/// The members with those that a word of a group line gives.
#[tactic(auto, using(crate::proofs::TableLemmas::members_of_lines))]
fn with_word(
    groups: &Groups,
    scope: &Scope,
    place: usize,
    members: Distinct,
    word: &Text,
) -> Result<Distinct, NoMemory>
    ensures { IfOk result (λ all. all ≡ with_word groups.now scope.now place members word.now) }
{
    let [b'@', ..] = word.bytes() else {
        return members.with(word);
    };
    with_lines(lines_named(groups, word), scope, place, members)
}

/// The members with those that a scope sees, before a place, of a group with these lines.
fn with_lines(
    lines: &[GroupLine],
    scope: &Scope,
    before: usize,
    members: Distinct,
) -> Result<Distinct, NoMemory>
    ensures { IfOk result (λ all. all ≡ lines_counted lines.now scope.now before members) }
{
    let mut all = members;
    for line in lines {
        if !counts(line, scope, before) {
            continue;
        }
        all = all.with_all(line.members.as_slice())?;
    }
    Ok(all)
}

/// The members that the words of a group line give.
fn meanings(
    alloc: Global,
    groups: &Groups,
    scope: &Scope,
    place: usize,
    words: &[Text],
) -> Result<TextList, NoMemory>
    ensures { IfOk result (λ list. list ≡ meanings groups.now scope.now place words.now) }
{
    let mut members = Distinct::new(alloc);
    for word in words {
        members = with_word(groups, scope, place, members, word)?;
    }
    Ok(members.into_list())
}

/// Adds a line to those of its group.
#[tactic(auto, using(crate::proofs::GroupLemmas::insert_removed))]
fn add_line(
    alloc: Global,
    groups: &mut Groups,
    name: &Text,
    line: GroupLine,
) -> Result<(), NoMemory>
    ensures { OnOk result (groups.new ≡ with_group_line groups.old name.now line) }
{
    let key = name.clone()?;
    let mut lines = match groups.remove(name) {
        Some(lines) => lines,
        None => ItemList::new(alloc),
    };
    lines.push(line)?;
    groups.insert(key, lines)?;
    Ok(())
}

/// Adds a statement, where it is a group line.
fn add_placed(
    alloc: Global,
    groups: &mut Groups,
    place: usize,
    placed: &Placed,
) -> Result<(), NoMemory>
    ensures { OnOk result (groups.new ≡ with_placed groups.old place placed.now) }
{
    let Placed::Line(line) = placed else {
        return Ok(());
    };
    let Statement::Group { name, members } = &line.statement else {
        return Ok(());
    };
    let members = meanings(alloc, groups, &line.scope, place, members.as_slice())?;
    let added = GroupLine {
        place,
        scope: line.scope.clone()?,
        members,
    };
    add_line(alloc, groups, name, added)
}
