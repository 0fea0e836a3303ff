//! The numbers of limits.
//!
//! The definitions of the crates below cite their limits by the names of constants, so a constant with
//! another number would change them unseen. Here is each number once more, as a law. `docs/MAP.md` has all
//! limits, with what happens past them.
#![tactic(auto)]

ghost use Rattle.stated_limits.specs.Limits.{OfFiles, OfPaths, OfRules, OfWords};

/// Tells the numbers of the limits. It does nothing, and is called for its clauses.
pub fn hold_limits()
    ensures words { OfWords }
    ensures files { OfFiles }
    ensures rules { OfRules }
    ensures paths { OfPaths }
{}
