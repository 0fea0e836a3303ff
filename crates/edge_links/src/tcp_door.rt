// A door through which the connections of a TCP listener come.
ghost use Rattle.std.specs.Prelude.{◌≡◌, ◌≢◌, ◌+◌, IsNone, IsTrue, false, is_some};
ghost use Rattle.edge_links.specs.Accepting.{is_kind_of_one_connection, is_number_of_one_connection, is_of_one_connection};
ghost use Rattle.edge_links.specs.Door.{Answers, TakesBack};
ghost use Rattle.edge_links.specs.Sockets.{Closes, faults_after_next, has_listener, last_closing, links_out, listener_state, unsent_links};

use crate::door::{Door, Next};
use crate::stream_link::{Closing, StreamLink};
use crate::tcp_link::TcpLink;
use pktline_core::Endpoint;
use std::alloc::Global;
use std::io;
use std::io::ErrorKind;
use std::net::{TcpListener, TcpStream};

// How many connections in a row may be left out before `next` has failed.
const MOST_LEFT_OUT: u32 = 1024;

// ENONET, EPROTO, ENOPROTOOPT, EOPNOTSUPP and EHOSTDOWN of Linux, which have no `ErrorKind`.
const ONE_CONNECTION_NUMBERS: [i32; 5] = [64, 71, 92, 95, 112];

/// A door through which the connections of a TCP listener come. Several doors may share one listener, each in
/// a thread of its own. It tells nothing of the links that will come, and it never closes.
///
/// A connection whose client is gone before it is accepted, and one of which no link can be made, are left
/// out: `next` waits for another. It fails where the system accepts none, and where 1,024 in a row were left
/// out.
#[derive(Drop)]
pub struct TcpDoor<'a> {
    alloc: Global,
    listener: Option<&'a TcpListener>,
    faults: u64,
    out: u64,
    unsent: u64,
    last: Option<Closing<TcpStream>>,
}

impl<'a> TcpDoor<'a> {
    /// A door of this listener. Without one, as where its address is taken, each call of `next` fails. It
    /// takes no memory; each link takes its buffers.
    pub fn new(alloc: Global, listener: Option<&'a TcpListener>) -> TcpDoor<'a>
        ensures state { ⟦<TcpDoor<'a> as Door<TcpLink>>⟧.state result ≡ listener_state 0 0 }
        ensures listener { has_listener result ≡ is_some listener.entry }
        ensures unsent { unsent_links result ≡ 0 }
    {
        TcpDoor {
            alloc,
            listener,
            faults: 0,
            out: 0,
            unsent: 0,
            last: None,
        }
    }

    /// How many links were taken back of which not all that was put could be sent, so that a client hasn't got
    /// the whole reply.
    pub fn unsent(&self) -> u64
        ensures { result ≡ unsent_links self.now }
    {
        self.unsent
    }

    // Waits for a connection of which a link can be made.
    fn accept(&self) -> Option<TcpLink>
        ensures unbound { has_listener self.now ≡ false → IsNone result }
    {
        let listener = self.listener?;
        for _ in 0..MOST_LEFT_OUT {
            match listener.accept() {
                Ok((stream, _)) => {
                    if let Ok(link) = TcpLink::new(self.alloc, stream) {
                        return Some(link);
                    }
                }
                Err(error) if is_of_one_connection(&error) => {}
                Err(_) => return None,
            }
        }
        None
    }
}

// Whether an error of this kind is of the connection that was to be accepted.
fn is_kind_of_one_connection(kind: ErrorKind) -> bool
    ensures { result ≡ is_kind_of_one_connection kind }
{
    matches!(
        kind,
        ErrorKind::Interrupted
            | ErrorKind::ConnectionAborted
            | ErrorKind::ConnectionReset
            | ErrorKind::HostUnreachable
            | ErrorKind::NetworkUnreachable
            | ErrorKind::NetworkDown
    )
}

// Whether an error of this number is of the connection that was to be accepted.
fn is_number_of_one_connection(number: Option<i32>) -> bool
    ensures { result ≡ is_number_of_one_connection number }
{
    match number {
        Some(number) => ONE_CONNECTION_NUMBERS.contains(&number),
        None => false,
    }
}

// Whether this error of an `accept` is of the connection that was to be accepted. The system has then taken
// it off its queue, and may accept the next.
fn is_of_one_connection(error: &io::Error) -> bool
    ensures { result ≡ is_of_one_connection error.now }
{
    is_kind_of_one_connection(error.kind()) || is_number_of_one_connection(error.raw_os_error())
}

impl<'a> Door<TcpLink> for TcpDoor<'a> {
    ghost state = { λ d. listener_state d.faults d.out };

    fn next(&mut self) -> Next<TcpLink>
        ensures answers { Answers (⟦<TcpDoor<'a> as Door<TcpLink>>⟧.state self.old) (⟦<TcpDoor<'a> as Door<TcpLink>>⟧.state self.new) result }
        ensures faults { (⟦<TcpDoor<'a> as Door<TcpLink>>⟧.state self.new).faults ≡ faults_after_next (⟦<TcpDoor<'a> as Door<TcpLink>>⟧.state self.old).faults result }
        ensures open { result ≢ Next.Closed }
        ensures unbound { has_listener self.old ≡ false → result ≡ Next.Failed }
        ensures listener { has_listener self.new ≡ has_listener self.old }
        ensures unsent { unsent_links self.new ≡ unsent_links self.old }
    {
        match self.accept() {
            Some(link) => {
                self.out = self.out.saturating_add(1);
                Next::Link(link)
            }
            None => {
                self.faults = self.faults.saturating_add(1);
                Next::Failed
            }
        }
    }

    /// Ends the connection, as `TcpLink::close` does. Where not all that was put could be sent, now or before,
    /// it is counted.
    fn done(&mut self, link: TcpLink)
        requires { IsTrue (⟦<TcpDoor<'a> as Door<TcpLink>>⟧.state self.old).out }
        ensures taken { TakesBack (⟦<TcpDoor<'a> as Door<TcpLink>>⟧.state self.old) (⟦<TcpDoor<'a> as Door<TcpLink>>⟧.state self.new) link }
        ensures faults { (⟦<TcpDoor<'a> as Door<TcpLink>>⟧.state self.new).faults ≡ (⟦<TcpDoor<'a> as Door<TcpLink>>⟧.state self.old).faults }
        ensures listener { has_listener self.new ≡ has_listener self.old }
        ensures out { links_out self.old ≡ links_out self.new + 1 }
        ensures closed { Closes ⟦<StreamLink<TcpStream> as Endpoint>⟧.state (unsent_links self.old) (unsent_links self.new) link (last_closing self.new) }
    {
        self.out -= 1;
        let closing = link.close();
        if !closing.sent {
            self.unsent = self.unsent.saturating_add(1);
        }
        self.last = Some(closing);
    }
}
