// All posts over one hub.
ghost use Rattle.std.specs.Prelude.{◌≡◌, ◌*◌, ◌^◌, ◌<◌, ℕ, All, IfNone, IfSome, IsTrue, None, false, length, slice_index_or, true};
ghost use Rattle.std.specs.List.{list_any, sum_by};
ghost use Rattle.session_workers.specs.Passes.{IsIdle};
ghost use Rattle.session_workers.specs.ServesAll.{ServesAll};

use crate::hand::{clear, gather, hand_out};
use crate::post::{Post, serve_posts};
use edge_links::Door;
use pktline_core::Link;
use session_core::{Gate, Protocol};
use shared_hub::{EventHub, SharedHub};
use std::alloc::Global;
use std::snapshot::Snapshot;
use std::sync::Wait;
use std::thread::Threads;

/// What all workers did.
#[derive(Drop)]
pub struct ServedAll<H> {
    /// The hub, with what the sessions left of it. None only where there was no memory to share it, before
    /// any door was asked.
    pub hub: Option<H>,
    /// How many links were served and given back.
    pub sessions: u64,
    /// Whether a door failed.
    pub door_failed: bool,
    /// Whether memory lacked: in a session, if it wasn't ended by a hub that has stopped, or to share the hub.
    pub no_memory: bool,
}

// How many links all posts served.
fn sessions_of<D, G, H: EventHub, P>(posts: &[Post<D, G, H, P>]) -> u64
    requires { sum_by (λ p. p.tally.sessions) posts.now < 2 ^ 64 }
    ensures { result ≡ sum_by (λ p. p.tally.sessions) posts.now }
{
    posts.iter().map(|post| post.tally.sessions).sum()
}

// Whether a post's door failed.
fn have_failed<D, G, H: EventHub, P>(posts: &[Post<D, G, H, P>]) -> bool
    ensures { result ≡ list_any (λ p. p.tally.door_failed) posts.now }
{
    posts.iter().any(|post| post.tally.door_failed)
}

// Whether memory lacked in a session of a post.
fn have_lacked<D, G, H: EventHub, P>(posts: &[Post<D, G, H, P>]) -> bool
    ensures { result ≡ list_any (λ p. p.tally.no_memory) posts.now }
{
    posts.iter().any(|post| post.tally.no_memory)
}

// There was no memory for the lock or the passes.
fn without_memory<H>() -> ServedAll<H>
    ensures { result ≡ record { hub = None; sessions = 0; door_failed = false; no_memory = true } }
{
    ServedAll {
        hub: None,
        sessions: 0,
        door_failed: false,
        no_memory: true,
    }
}

/// Serves the links of all posts over one hub, each post by its protocol and a worker, on a thread of its own where the system
/// gives one (one of them runs on the caller's). A worker ends once it has served so many, its door is closed
/// or its door fails, and behind a session that the stopped hub ended. Entries that a post's sessions log
/// bear its place as their number.
///
/// A link's fault, or want of memory in a session, ends that session alone. A session that a stopped hub ended
/// ends as one without memory, and isn't counted as such. The turn of the hub is taken once
/// for each entry. Memory for the lock and the passes is taken first.
pub fn serve_all<
    L: Link + Send,
    D: Door<L> + Send,
    G: Gate + Send,
    R: Threads + Wait + Sync,
    H: EventHub + Send + Drop,
    P: Protocol + Send,
>(rt: &R, alloc: Global, hub: H, posts: &mut [Post<D, G, H, P>], each: u64) -> ServedAll<H>
where
    P::End: Send,
    requires few { length posts.old < 2 ^ 32 }
    requires fits { length posts.old * each < 2 ^ 64 }
    ensures served { IfSome result.hub (λ after. ServesAll P.meaning L.state D.state H.may_stop (H.view hub) (H.view after) posts.old posts.new each result.sessions result.door_failed result.no_memory) }
    ensures goes { IfSome result.hub (λ after. H.goes_on hub after) }
    ensures none { IfNone result.hub ((result.sessions ≡ 0) × (result.door_failed ≡ false) × IsTrue result.no_memory) }
    ensures unasked { IfNone result.hub ((k : ℕ) (d : _) → (slice_index_or posts.new k d).door ≡ (slice_index_or posts.old k d).door) }
    ensures idle { All (λ post. IsIdle post) posts.new }
{
    // called for its clause that the log is legal
    hub.sound();
    if posts.is_empty() {
        return ServedAll {
            hub: Some(hub),
            sessions: 0,
            door_failed: false,
            no_memory: false,
        };
    }
    let Ok((shared, first)) = SharedHub::new(alloc, hub) else {
        clear(posts);
        return without_memory();
    };
    let about = Snapshot::of(&first);
    let Ok(()) = hand_out(alloc, &shared, first, posts) else {
        clear(posts);
        return without_memory();
    };
    serve_posts::<L, D, G, R, H, P>(rt, alloc, &shared, posts, each);
    let sessions = sessions_of(posts);
    let door_failed = have_failed(posts);
    let no_memory = have_lacked(posts);
    let pass = gather(&shared, about, posts);
    clear(posts);
    ServedAll {
        hub: Some(shared.close(pass)),
        sessions,
        door_failed,
        no_memory,
    }
}
