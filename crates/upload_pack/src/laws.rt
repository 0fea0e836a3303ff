// Laws of a fetch, and of what it is sent.
ghost use Rattle.upload_pack.specs.Laws.{ClonesAreWhole, FetchesAreOrdered, FetchesAreWhole, LinksAreSent, ReachedByLinks};

/// A fetch is in order, and what is sent is what was asked for, and what that needs; a call does nothing.
pub fn hold_laws()
    ensures reached { ReachedByLinks }
    ensures links { LinksAreSent }
    ensures fetches { FetchesAreWhole }
    ensures clones { ClonesAreWhole }
    ensures ordered { FetchesAreOrdered }
{}
