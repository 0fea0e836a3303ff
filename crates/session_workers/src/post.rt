// Posts, each with a worker.
ghost use Rattle.std.specs.Prelude.{◌≡◌, ℕ, ◌<◌, All, length, slice_index_or};
ghost use Rattle.session_workers.specs.Passes.{HasWorkedAt, IsIdle, MayWork};

use crate::worker::{Tally, work};
use edge_links::Door;
use pktline_core::Link;
use session_core::{Gate, Protocol};
use shared_hub::{EventHub, SharedHub, SharedPass};
use std::alloc::Global;
use std::sync::Wait;
use std::thread;
use std::thread::Threads;

/// One worker's place: its door, its gate, and what it serves.
#[derive(Drop)]
pub struct Post<D, G, H: EventHub, P> {
    /// Where its links come from, and where they go.
    pub door: D,
    /// Called in each of its sessions behind an opening that was granted.
    pub gate: G,
    /// What is served over each of its links.
    pub protocol: P,
    // From where the worker is sent to its thread up to where its pass is joined; none before and after.
    pub(crate) pass: Option<SharedPass<H>>,
    pub(crate) tally: Tally,
}

impl<D, G, H: EventHub, P> Post<D, G, H, P> {
    /// A post with this door, this gate and this protocol. It takes no memory.
    pub fn new(door: D, gate: G, protocol: P) -> Post<D, G, H, P>
        ensures door { result.door ≡ door }
        ensures gate { result.gate ≡ gate }
        ensures protocol { result.protocol ≡ protocol }
        ensures idle { IsIdle result }
    {
        Post {
            door,
            gate,
            protocol,
            pass: None,
            tally: Tally::NONE,
        }
    }
}

// What the worker of a post does.
fn serve_post<L: Link, D: Door<L>, G: Gate, R: Wait, H: EventHub, P: Protocol>(
    rt: &R,
    alloc: Global,
    hub: &SharedHub<H>,
    post: &mut Post<D, G, H, P>,
    each: u64,
)
    requires { MayWork hub.now post.old }
    ensures { HasWorkedAt P.meaning L.state D.state H.may_stop each post.old post.new }
{
    let Some(pass) = post.pass.take() else {
        unreachable!()
    };
    let (pass, tally) = work::<L, D, G, R, H, P>(
        rt,
        alloc,
        hub,
        pass,
        post.protocol,
        &mut post.door,
        &mut post.gate,
        each,
    );
    post.pass = Some(pass);
    post.tally = tally;
}

/// Serves the posts, each by a worker, on a thread of its own where the system gives one.
pub fn serve_posts<
    L: Link + Send,
    D: Door<L> + Send,
    G: Gate + Send,
    R: Threads + Wait + Sync,
    H: EventHub + Send,
    P: Protocol + Send,
>(rt: &R, alloc: Global, hub: &SharedHub<H>, posts: &mut [Post<D, G, H, P>], each: u64)
where
    P::End: Send,
    requires some { 0 < length posts.old }
    requires may { All (λ post. MayWork hub.now post) posts.old }
    ensures worked { (k : ℕ) (d : _) → k < length posts.old → HasWorkedAt P.meaning L.state D.state H.may_stop each (slice_index_or posts.old k d) (slice_index_or posts.new k d) }
{
    let threads = posts.len();
    let worker = |_index: usize, post: &mut Post<D, G, H, P>|
        requires { MayWork hub.now post.old }
        ensures { HasWorkedAt P.meaning L.state D.state H.may_stop each post.old post.new }
    { serve_post::<L, D, G, R, H, P>(rt, alloc, hub, post, each) };
    thread::for_each_mut(rt, posts, threads, &worker);
}
