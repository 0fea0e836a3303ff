// What a client sends is served.
ghost use Rattle.session_laws.specs.Laws.{FetchesAreServed, FirstIsAcknowledged, InfoIsServed, NothingIsCommon, PermsAreServed, PushesAreServed, RefsAreListed, SomeAreSpelled};

/// Tells that a session serves what a client spells. It does nothing, and is called for its clauses.
pub fn hold_laws()
    ensures pushes { PushesAreServed }
    ensures fetches { FetchesAreServed }
    ensures acknowledged { FirstIsAcknowledged }
    ensures nothing { NothingIsCommon }
    ensures listed { RefsAreListed }
    ensures perms { PermsAreServed }
    ensures info { InfoIsServed }
    ensures some { SomeAreSpelled }
{}
