// Laws of the definitions.
ghost use Rattle.session_workers.specs.Laws.{ServedStays};

use session_core::Protocol;

/// The law holds of every protocol, and of every log.
pub fn hold_laws<P: Protocol>()
    ensures stays { (protocol : _) → ServedStays (P.meaning protocol) }
{}
