// Laws of interactions, which hold of every protocol.
ghost use Rattle.interaction_tree.specs.Laws.{AloneAsLogged, BeginningsAgree, BothEndAs, CutOffsRun, EndsOrLacks, EntriesGrow, EntriesRun, HaltsCompose, LogsHaveAnswers, NothingRuns, OnlyCallersAreAlone, OrdersCompose, OrdersEndAs, OrdersOfParts, OthersAreNotOwn, PacketsRun, PacksRun, ReadingsRun, RefusedPacksRun, RunsCompose, RunsEndAs, RunsTakeTurns, TracesOfParts, TurnsCompose, TurnsEndAs, TurnsOfParts, TurnsUseTheRead, WritesRun};

/// What follows of code that ran an interaction; a call does nothing.
pub fn turns_hold<E, A>()
    ensures turns { RunsTakeTurns E A }
    ensures used { TurnsUseTheRead E A }
    ensures sure { EndsOrLacks E A }
    ensures grow { EntriesGrow }
    ensures others { OthersAreNotOwn }
    ensures answers { LogsHaveAnswers }
    ensures begun { BeginningsAgree }
    ensures only { OnlyCallersAreAlone }
    ensures alone { AloneAsLogged E A }
{}

/// How code runs an interaction, step after step; a call does nothing.
pub fn steps_hold<E, A, B>()
    ensures composed { RunsCompose E A B }
    ensures halted { HaltsCompose E A B }
    ensures nothing { NothingRuns E A }
    ensures written { WritesRun E }
    ensures read { ReadingsRun E }
    ensures cut_off { CutOffsRun E A }
    ensures entered { EntriesRun E }
    ensures packets { PacketsRun E }
    ensures packs { PacksRun E }
    ensures refused { RefusedPacksRun E A }
{}

/// How turns, and the order of entries and bytes, compose; a call does nothing.
pub fn composition_holds<E, A, B>()
    ensures turns { TurnsCompose E A B }
    ensures order { OrdersCompose E A B }
{}

/// An interaction may have other ends; a call does nothing.
pub fn ends_may_differ<E, F, A, B>()
    ensures turns { TurnsEndAs E F A }
    ensures runs { RunsEndAs E F A }
    ensures order { OrdersEndAs E F A }
    ensures both { BothEndAs E F A B }
{}

/// An interaction may go over a part of an input; a call does nothing.
pub fn parts_hold<E, A>()
    ensures turns { TurnsOfParts E A }
    ensures traces { TracesOfParts E A }
    ensures order { OrdersOfParts E A }
{}
