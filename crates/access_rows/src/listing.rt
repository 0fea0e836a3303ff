// What a user sees of the repositories.
use crate::names::Asker;
use access_check::{NoMemory, Policy, UserName, Wild};
use repo_listing::{LookList, line_text, push_patterns, push_repo};
use std::alloc::Global;

/// The line of a repository, where the user sees it.
pub(crate) fn push_look(
    alloc: Global,
    out: &mut Vec<u8>,
    policy: &Policy,
    wild: &Wild,
    asker: &Asker,
) -> Result<(), NoMemory> {
    let mut list = LookList::new(alloc);
    push_repo(&mut list, policy, wild, &asker.repo, &asker.user)?;
    push_list(alloc, out, &list)
}

/// The lines of the patterns by which the user may create repositories.
pub(crate) fn push_creatable(
    alloc: Global,
    out: &mut Vec<u8>,
    policy: &Policy,
    user: &UserName,
) -> Result<(), NoMemory> {
    let mut list = LookList::new(alloc);
    push_patterns(alloc, &mut list, policy, user)?;
    push_list(alloc, out, &list)
}

fn push_list(alloc: Global, out: &mut Vec<u8>, list: &LookList) -> Result<(), NoMemory> {
    for line in list.as_slice() {
        out.extend_from_slice(line_text(alloc, line)?.bytes())?;
    }
    Ok(())
}
