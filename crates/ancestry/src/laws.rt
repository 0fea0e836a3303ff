// Laws of the definitions.
ghost use Rattle.ancestry.specs.Laws.{AncestorsAreLower, AncestorsOfAncestors, GenerationsFollowParents, LinesLeadToAncestors, MeetsWithinObjects, MissingIsLeast, NoMergeByItself, OneGeneration, ReachedIsMet, WrongIsLeast};

/// The laws hold, of all objects and every root.
pub fn hold_laws()
    ensures within { MeetsWithinObjects }
    ensures missing { MissingIsLeast }
    ensures wrong { WrongIsLeast }
    ensures reached { ReachedIsMet }
    ensures lines { LinesLeadToAncestors }
    ensures ancestors { AncestorsOfAncestors }
    ensures itself { NoMergeByItself }
    ensures generation { OneGeneration }
    ensures parents { GenerationsFollowParents }
    ensures lower { AncestorsAreLower }
{}
