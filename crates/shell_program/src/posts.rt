// Posts at a TCP listener.
ghost use Rattle.std.specs.Prelude.{◌≡◌, ◌+◌, ◌-◌, ◌^◌, length, min, OnOk};
ghost use Rattle.std.specs.List.{sum_by};
ghost use Rattle.edge_links.specs.Sockets.{unsent_links};

use crate::protocols::ServerProtocol;
use base_types::NoMemory;
use edge_links::TcpDoor;
use session_core::OpenGate;
use session_workers::{EventHub, Post};
use std::alloc::Global;
use std::net::TcpListener;

/// A post whose links are connections.
pub type TcpPost<'a, H> = Post<TcpDoor<'a>, OpenGate, H, ServerProtocol>;

/// Adds so many posts at one listener, or at none where its address couldn't be bound, which their doors tell
/// as a failure. They serve by this protocol, and their gates are always open.
pub fn add_posts<'a, H: EventHub>(
    alloc: Global,
    posts: &mut Vec<TcpPost<'a, H>>,
    count: usize,
    listener: Option<&'a TcpListener>,
    protocol: ServerProtocol,
) -> Result<(), NoMemory>
    ensures { OnOk result (length posts.new.items ≡ length posts.old.items + count) }
{
    for _ in 0..count {
        posts.push(Post::new(TcpDoor::new(alloc, listener), OpenGate, protocol))?;
    }
    Ok(())
}

/// How many connections of these posts were closed of which not all that was put could be sent, so that their
/// clients haven't got the whole reply.
pub fn unsent_at<H: EventHub>(posts: &[TcpPost<'_, H>]) -> u64
    ensures { result ≡ min (sum_by (λ post. unsent_links post.door) posts.now) (2 ^ 64 - 1) }
{
    let mut unsent: u64 = 0;
    for post in posts {
        unsent = unsent.saturating_add(post.door.unsent());
    }
    unsent
}
