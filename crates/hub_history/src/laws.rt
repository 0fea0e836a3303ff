// What holds of the definitions themselves.
ghost use Rattle.hub_history.specs.Laws.{BeginningIsLegal, ChangesAreDone, ConfChangesAreDone, ConfStaysGood, DirFileIsInTheWay, DoneHasNoneInTheWay, DoneIsLet, DoneIsLetNow, DoneMoves, LegalByPlaces, NamesStayOnce, NamesStayShort, ObjectsAreFormed, ObjectsOnlyGrow, OneAnswer, OpeningStays, PinsAreOfOpenings, PinsOfItsPlace, RefsStayApart, RefsStayNonzero, RefsStayWhole, RefusedAtomicChangesNothing, RepositoriesStay, StaleIsStale, StateStays};
ghost use Rattle.hub_history.specs.RoleLaws.{AnswersTellOfRoles, ChangesAreOfOneRole, CreatedIsNew, CreatorsOpened, NewIsEmpty, RolesChangeThere, RolesStaySets, UndeclaredStay};

use rule_compile::some_patterns_are_true;

/// The laws of histories; a call does nothing.
pub fn hold_laws()
    ensures places { LegalByPlaces }
    ensures beginning { BeginningIsLegal }
    ensures stays { StateStays }
    ensures stands { OpeningStays }
    ensures pins { PinsOfItsPlace }
    ensures openings { PinsAreOfOpenings }
    ensures short { NamesStayShort }
    ensures names { NamesStayOnce }
    ensures formed { ObjectsAreFormed }
    ensures apart { RefsStayApart }
    ensures whole { RefsStayWhole }
    ensures nonzero { RefsStayNonzero }
    ensures grow { ObjectsOnlyGrow }
    ensures there { RepositoriesStay }
    ensures allowed { DoneIsLet }
    ensures allowed_now { DoneIsLetNow }
    ensures moves { DoneMoves }
    ensures changes { ChangesAreDone }
    ensures stale { StaleIsStale }
    ensures directory { DirFileIsInTheWay }
    ensures room { DoneHasNoneInTheWay }
    ensures atomic { RefusedAtomicChangesNothing }
    ensures good { ConfStaysGood }
    ensures conf { ConfChangesAreDone }
    ensures creators { CreatorsOpened }
    ensures created { CreatedIsNew }
    ensures empty { NewIsEmpty }
    ensures sets { RolesStaySets }
    ensures roles { AnswersTellOfRoles }
    ensures role { ChangesAreOfOneRole }
    ensures elsewhere { RolesChangeThere }
    ensures undeclared { UndeclaredStay }
    ensures one { OneAnswer }
{
    // called for its clause that some answers about patterns are true, which the proof cites
    some_patterns_are_true();
    // called for its clause on what is said of a change
    update_check::hold_laws();
    // called for its clause that a conf has one answer
    policy_swap::hold_laws();
    // called for its clause that the setup's conf comes to rules
    setup_conf::hold_laws();
}
