// What holds of the definitions themselves.
ghost use Rattle.conf_groups.specs.Laws.{EachFileIsPlacedOnce, MembersAreThoseByTheRule, OrderHasNoEffect, PlainConfIsItsLines};

/// The laws of splicing and of groups; a call does nothing.
pub fn hold_laws()
    ensures plain { PlainConfIsItsLines }
    ensures once { EachFileIsPlacedOnce }
    ensures order { OrderHasNoEffect }
    ensures members { MembersAreThoseByTheRule }
{}
