//! A repository and a conf, and the pin of an opening.

use ancestry::{Closures, Known};
use hub_state::{ConfInForce, HostedRepo, Pin, RepoName, UserName, Want};
use ref_store::Repo;
use std::alloc::Global;
use std::test::Fail;
use wild_perms::Wild;

fn user(alloc: Global) -> Result<UserName, Fail> {
    Ok(UserName::parse(alloc, b"ann")?.ok_or("a user's name")?)
}

fn repo_name(alloc: Global) -> Result<RepoName, Fail> {
    Ok(RepoName::parse(alloc, b"u/ann/x")?.ok_or("a repository's name")?)
}

fn has_creator(hosted: &HostedRepo) -> bool {
    hosted.wild().creator().is_some()
}

// Whether a repository keeps its creator as its refs change, and loses it with other roles.
fn keeps_its_creator(alloc: Global, hosted: &HostedRepo) -> Result<bool, Fail> {
    let repo = Repo::empty(alloc)?;
    let known = Known::nothing(alloc);
    let moved = hosted.with_repo(alloc, repo, known, Closures::none(alloc))?;
    let plain = moved.with_wild(alloc, Wild::plain(alloc))?;
    Ok(has_creator(&moved) && has_creator(&moved.clone()?) && !has_creator(&plain))
}

fn is_pinned(pin: &Pin) -> bool {
    pin.policy().rules().len() == 2 && pin.repo().count() == 0 && pin.place() == 3
}

fn pinned(alloc: Global, conf: &ConfInForce) -> Result<bool, Fail> {
    let hosted = HostedRepo::empty(alloc, Wild::plain(alloc))?;
    let pin = Pin::new(
        3,
        user(alloc)?,
        repo_name(alloc)?,
        Want::Read,
        conf.clone()?,
        hosted,
    );
    Ok(is_pinned(&pin))
}

#[test]
fn a_repository_keeps_its_creator(rt: HostRuntime) -> Result<(), Fail> {
    let hosted = HostedRepo::empty(rt.alloc(), Wild::born(rt.alloc(), user(rt.alloc())?))?;
    assert!(rt; keeps_its_creator(rt.alloc(), &hosted)?);
    Ok(())
}

#[test]
fn a_pin_has_the_rules_of_its_conf(rt: HostRuntime) -> Result<(), Fail> {
    let conf = ConfInForce::setup(rt.alloc(), &user(rt.alloc())?)?;
    assert!(rt; conf.admin().bytes() == b"ann".as_slice());
    assert!(rt; pinned(rt.alloc(), &conf)?);
    Ok(())
}
