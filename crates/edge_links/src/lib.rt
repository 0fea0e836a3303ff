//! The edges of the server: doors, through which links come and go, and the system's own streams as halves of
//! a link.
//!
//! - `door`: what a door is: a trait, whose calls give the next link and take one back;
//! - `memory_door`: a door over links that are at hand, which fails at the calls that are listed;
//! - `standard`: standard input and output as the two halves of a link, or another reader and writer in their
//!   place;
//! - `stream`: what a stream of bytes in both directions is, as a TCP connection;
//! - `connection`, `stream_link`: such a stream as a link, which gathers what is put and reads ahead;
//! - `tcp_link`: a TCP connection as such a link;
//! - `tcp_door`: a door through which the connections of a listener come;
//! - `file_disk`: a file of the system as a disk, and `progress_disk` one that says how far it is read.
#![tactic(auto)]

mod connection;
mod door;
mod file_disk;
mod memory_door;
mod progress_disk;
mod standard;
mod stream;
mod stream_link;
mod tcp_door;
mod tcp_link;

pub use base_types::NoMemory;
pub use door::{Door, Next};
pub use file_disk::FileDisk;
pub use memory_door::MemoryDoor;
pub use progress_disk::ProgressDisk;
pub use standard::{StdSink, StdSource};
pub use stream::Stream;
pub use stream_link::{Closing, StreamLink};
pub use tcp_door::TcpDoor;
pub use tcp_link::TcpLink;
