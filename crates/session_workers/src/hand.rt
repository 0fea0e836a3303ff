// Passes, handed to the posts before their workers run, and joined behind.
ghost use Rattle.std.specs.Prelude.{◌≡◌, ℕ, ◌<◌, ◌^◌, All, IfSome, IsSome, None, OnOk, Some, length, slice_index_or};
ghost use Rattle.turn_lock.specs.Lock.{first_pass};
ghost use Rattle.session_workers.specs.Passes.{Follows, HasPassOf, IsIdle, IsWhole, pass_at, place_of};

use crate::post::Post;
use crate::worker::Tally;
use base_types::NoMemory;
use shared_hub::{EventHub, SharedHub, SharedPass};
use std::alloc::Global;
use std::snapshot::Snapshot;

/// Gives the first pass to the post at place 0, and to each other post the pass of its place.
pub fn hand_out<D, G, H: EventHub, P>(
    alloc: Global,
    hub: &SharedHub<H>,
    mut first: SharedPass<H>,
    posts: &mut [Post<D, G, H, P>],
) -> Result<(), NoMemory>
    requires some { 0 < length posts.old }
    requires few { length posts.old < 2 ^ 32 }
    requires first { first ≡ first_pass hub.now first.at_new }
    ensures places { (k : ℕ) (d : _) → place_of (slice_index_or posts.new k d) ≡ place_of (slice_index_or posts.old k d) }
    ensures passes { OnOk result ((k : ℕ) (d : _) → k < length posts.old → (slice_index_or posts.new k d).pass ≡ Some (pass_at hub.now first.at_new (length posts.old) k)) }
{
    for place in 1..posts.len() {
        let pass = hub.split(alloc, &mut first)?;
        let post = &mut posts[place];
        post.pass = Some(pass);
    }
    let post = &mut posts[0];
    post.pass = Some(first);
    Ok(())
}

// Takes the pass of a post.
fn take_pass<D, G, H: EventHub, P>(post: &mut Post<D, G, H, P>) -> SharedPass<H>
    requires { IsSome post.old.pass }
    ensures taken { post.old.pass ≡ Some result }
    ensures left { post.new ≡ record post.old { pass = None } }
{
    let Some(pass) = post.pass.take() else {
        unreachable!()
    };
    pass
}

/// Joins the passes of all posts into the one of the post at place 0.
pub fn gather<D, G, H: EventHub, P>(
    hub: &SharedHub<H>,
    first: Snapshot<SharedPass<H>>,
    posts: &mut [Post<D, G, H, P>],
) -> SharedPass<H>
    requires some { 0 < length posts.old }
    requires passes { (k : ℕ) (d : _) → k < length posts.old → HasPassOf hub.now first.value.at_new (length posts.old) k (slice_index_or posts.old k d).pass }
    ensures doors { (k : ℕ) (d : _) → (slice_index_or posts.new k d).door ≡ (slice_index_or posts.old k d).door }
    ensures whole { IsWhole hub.now first.value.at_new (length posts.old) (length posts.old) result }
    ensures follows { (k : ℕ) (d : _) → k < length posts.old → IfSome (slice_index_or posts.old k d).pass (λ pass. Follows k pass result) }
{
    let mut whole = take_pass(&mut posts[0]);
    for place in 1..posts.len() {
        let pass = take_pass(&mut posts[place]);
        hub.join(&mut whole, pass);
    }
    whole
}

// Leaves a post without a pass, and with nothing counted.
fn clear_post<D, G, H: EventHub, P>(post: &mut Post<D, G, H, P>)
    ensures door { post.new.door ≡ post.old.door }
    ensures idle { IsIdle post.new }
{
    post.pass = None;
    post.tally = Tally::NONE;
}

/// Leaves each post as it was before passes were handed out.
pub fn clear<D, G, H: EventHub, P>(posts: &mut [Post<D, G, H, P>])
    ensures doors { (k : ℕ) (d : _) → (slice_index_or posts.new k d).door ≡ (slice_index_or posts.old k d).door }
    ensures idle { All (λ post. IsIdle post) posts.new }
{
    for place in 0..posts.len() {
        clear_post(&mut posts[place]);
    }
}
