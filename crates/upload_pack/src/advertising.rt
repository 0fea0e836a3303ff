// The advertisement of a fetch, and which wants it allows.
ghost use Rattle.std.specs.Prelude.{◌≡◌, ◌≤◌, ◌+◌, ◌++◌, ◌||◌, [], length, codes, IfOk, OnOk, if◌then◌else◌};
ghost use Rattle.std.specs.FinMap.{get};
ghost use Rattle.std.specs.List.{flat_map, list_any};
ghost use Rattle.git_object.specs.declared.object_id.ObjectId.{ObjectId};
ghost use Rattle.pktline_core.specs.Links.{KeepsReading};
ghost use Rattle.pktline_core.specs.Packets.{spelling, Flush};
ghost use Rattle.ref_store.specs.Objects.{same_id};
ghost use Rattle.ref_store.specs.Refs.{zero_id};
ghost use Rattle.hub_history.specs.State.{HasShortNames};
ghost use Rattle.interaction_tree.specs.Interaction.{write};
ghost use Rattle.session_core.specs.End.{TellsLink};
ghost use Rattle.session_core.specs.Packets.{packet};
ghost use Rattle.session_core.specs.Parts.{RunsLink};
ghost use Rattle.upload_pack.specs.Advertising.{advertisement, advertised_ids, head_branch, head_lines, ids_of, is_tag, lines_behind, peeled, ref_line, refs_text, with_peeled};
ghost use Rattle.upload_pack.specs.Wants.{not_ours};

use base_types::{NoMemory, Text};
use git_object::{Kind, ObjectId, ObjectList};
use indexmap::IndexSet;
use pktline_core::Link;
use ref_store::{Lens, Repo, Salt};
use session_core::{SessionEnd, say, say_flush};
use std::alloc::{AllocError, Global};

/// Writes what may be wanted of a repository: `HEAD`, the refs in the byte order of their names, and what
/// tags stand for.
pub fn advertise<L: Link>(alloc: Global, link: &mut L, repo: &Repo) -> Result<(), SessionEnd>
    requires names { HasShortNames repo.now.refs }
    ensures runs { RunsLink (L.state link.old) (L.state link.new) (write (advertisement repo.now)) result }
    ensures tells { TellsLink (L.state link.old) (L.state link.new) result }
    ensures reading { KeepsReading (L.state link.old) (L.state link.new) }
{
    let head = head_of(alloc, repo)?;
    advertise_head(alloc, link, head)?;
    advertise_refs(alloc, link, repo, head.is_none())
}

// The value of the branch that a clone checks out, where it is there.
fn head_of(alloc: Global, repo: &Repo) -> Result<Option<ObjectId>, NoMemory>
    ensures { IfOk result (λ o. o ≡ get repo.now.refs head_branch) }
{
    let branch = Text::of(alloc, b"refs/heads/master")?;
    let id = repo.value(&branch);
    if id == ObjectId::zero() {
        return Ok(None);
    }
    Ok(Some(id))
}

// The line of `HEAD`, where it is listed.
fn advertise_head<L: Link>(
    alloc: Global,
    link: &mut L,
    head: Option<ObjectId>,
) -> Result<(), SessionEnd>
    ensures runs { RunsLink (L.state link.old) (L.state link.new) (write (flat_map packet (head_lines head))) result }
    ensures tells { TellsLink (L.state link.old) (L.state link.new) result }
    ensures reading { KeepsReading (L.state link.old) (L.state link.new) }
{
    match head {
        Some(id) => say_ref(
            alloc,
            link,
            id,
            b"HEAD",
            b"\0symref=HEAD:refs/heads/master\n",
        ),
        None => Ok(()),
    }
}

// The refs, and a flush; nothing may have been written before.
fn advertise_refs<L: Link>(
    alloc: Global,
    link: &mut L,
    repo: &Repo,
    none: bool,
) -> Result<(), SessionEnd>
    requires names { HasShortNames repo.now.refs }
    ensures runs { RunsLink (L.state link.old) (L.state link.new) (write (refs_text none repo.now)) result }
    ensures tells { TellsLink (L.state link.old) (L.state link.new) result }
    ensures reading { KeepsReading (L.state link.old) (L.state link.new) }
{
    let lens = Lens::new(alloc, repo, &ObjectList::new(alloc))?;
    let mut first = none;
    for (name, id) in repo.refs() {
        advertise_ref(alloc, link, &lens, name.bytes(), *id, first)?;
        first = false;
    }
    end_advertisement(alloc, link, first)
}

// A ref, and what its tag stands for.
fn advertise_ref<L: Link>(
    alloc: Global,
    link: &mut L,
    lens: &Lens,
    name: &[u8],
    id: ObjectId,
    first: bool,
) -> Result<(), SessionEnd>
    requires short { length name.now ≤ 1024 }
    ensures runs { RunsLink (L.state link.old) (L.state link.new) (write (flat_map packet (lines_behind first (with_peeled lens.now (name.now, id))))) result }
    ensures tells { TellsLink (L.state link.old) (L.state link.new) result }
    ensures reading { KeepsReading (L.state link.old) (L.state link.new) }
{
    say_ref(alloc, link, id, name, ending(first))?;
    match peeled(lens, id) {
        Some(id) => say_ref(alloc, link, id, name, b"^{}\n"),
        None => Ok(()),
    }
}

// The end of a ref's line; behind the first ref's zero byte stand no words.
fn ending(first: bool) -> &'static [u8]
    ensures { result.now ≡ (if first then codes "\0\n" else codes "\n") }
{
    if first {
        return b"\0\n".as_slice();
    }
    b"\n".as_slice()
}

// What a tag stands for.
fn peeled(lens: &Lens, id: ObjectId) -> Option<ObjectId>
    ensures { result ≡ peeled lens.now id }
{
    if is_tag(lens, id) {
        return Some(ancestry::peel(lens, id));
    }
    None
}

fn is_tag(lens: &Lens, id: ObjectId) -> bool
    ensures { result ≡ is_tag lens.now id }
{
    match lens.get(id) {
        Some(object) => object.kind() == Kind::Tag,
        None => false,
    }
}

// A line of an id and a name.
fn say_ref<L: Link>(
    alloc: Global,
    link: &mut L,
    id: ObjectId,
    name: &[u8],
    ending: &[u8],
) -> Result<(), SessionEnd>
    requires short { length name.now ≤ 1024 }
    requires ends { length ending.now ≤ 100 }
    ensures runs { RunsLink (L.state link.old) (L.state link.new) (write (packet (ref_line (name.now, id) ending.now))) result }
    ensures tells { TellsLink (L.state link.old) (L.state link.new) result }
    ensures reading { KeepsReading (L.state link.old) (L.state link.new) }
{
    let line = ref_line(alloc, id, name, ending)?;
    say(link, &line)
}

fn ref_line(alloc: Global, id: ObjectId, name: &[u8], ending: &[u8]) -> Result<Vec<u8>, AllocError>
    requires ends { length ending.now ≤ 100 }
    ensures text { IfOk result (λ v. v.items ≡ ref_line (name.now, id) ending.now) }
    ensures size { IfOk result (λ v. length v.items ≤ length name.now + 200) }
{
    let mut text = Vec::from_slice(alloc, &id.hex())?;
    text.extend_from_slice(b" ")?;
    text.extend_from_slice(name)?;
    text.extend_from_slice(ending)?;
    Ok(text)
}

// The line that stands where nothing is advertised, and the flush.
fn end_advertisement<L: Link>(alloc: Global, link: &mut L, none: bool) -> Result<(), SessionEnd>
    ensures runs { RunsLink (L.state link.old) (L.state link.new) (write (flat_map packet (lines_behind none []) ++ spelling Flush)) result }
    ensures tells { TellsLink (L.state link.old) (L.state link.new) result }
    ensures reading { KeepsReading (L.state link.old) (L.state link.new) }
{
    if none {
        say_ref(alloc, link, ObjectId::zero(), b"capabilities^{}", b"\0\n")?;
        return say_flush(link);
    }
    say_flush(link)
}

/// The first want that is no id of the advertisement.
pub fn not_ours(
    alloc: Global,
    repo: &Repo,
    wants: &[ObjectId],
) -> Result<Option<ObjectId>, NoMemory>
    ensures { IfOk result (λ o. o ≡ not_ours repo.now wants.now) }
{
    let ours = advertised_ids(alloc, repo)?;
    Ok(wants.iter().copied().find(|id| !ours.contains(id)))
}

// The ids of the advertisement, by which each want is looked up; `HEAD` has the id of its branch.
fn advertised_ids(alloc: Global, repo: &Repo) -> Result<IndexSet<ObjectId, Salt>, NoMemory>
    ensures { IfOk result (λ ids. (id : ObjectId) → list_any (same_id id) ids.keys ≡ list_any (same_id id) (advertised_ids repo.now)) }
{
    let lens = Lens::new(alloc, repo, &ObjectList::new(alloc))?;
    let mut ids = IndexSet::with_hasher(alloc, repo.salt());
    for (_, id) in repo.refs() {
        insert_with_peeled(&mut ids, &lens, *id)?;
    }
    Ok(ids)
}

fn insert_with_peeled(
    ids: &mut IndexSet<ObjectId, Salt>,
    lens: &Lens,
    id: ObjectId,
) -> Result<(), NoMemory>
    ensures { OnOk result ((other : ObjectId) → list_any (same_id other) ids.new.keys ≡ (list_any (same_id other) ids.old.keys || list_any (same_id other) (ids_of lens.now id))) }
{
    insert_id(ids, id)?;
    match peeled(lens, id) {
        Some(id) => insert_id(ids, id),
        None => Ok(()),
    }
}

fn insert_id(ids: &mut IndexSet<ObjectId, Salt>, id: ObjectId) -> Result<(), NoMemory>
    ensures { OnOk result ((other : ObjectId) → list_any (same_id other) ids.new.keys ≡ (list_any (same_id other) ids.old.keys || same_id other id)) }
{
    ids.insert(id)?;
    Ok(())
}
