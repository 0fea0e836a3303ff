// How a request ends.
use request_head::HttpFault;
use session_core::SessionEnd;

/// How a request ends.
#[derive(Clone, Copy, Debug, PartialEq, Eq)]
pub enum HttpEnd {
    /// What it asks for is refused before a repository is opened.
    Refused(HttpFault),
    /// The opening was denied.
    Denied,
    /// There is no such repository, and the user may not make it.
    NoRepo,
    /// The refs were written.
    Advertised,
    /// A push ended so, as the rest of a session would.
    Received(SessionEnd),
    /// A fetch ended so.
    Uploaded(SessionEnd),
    /// The input ended inside the head.
    Truncated,
    /// A read failed inside the head.
    ReadFault,
    /// A write failed before the rest of a session began.
    WriteFault,
    NoMemory,
}
