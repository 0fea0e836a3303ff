// Laws of the definitions.
ghost use Rattle.policy_swap.specs.Laws.{FaultsAgree, FilesOnce, NamesBelowConf, OneAnswer};

/// The laws hold, of all objects and all trees.
pub fn hold_laws()
    ensures names { NamesBelowConf }
    ensures once { FilesOnce }
    ensures faults { FaultsAgree }
    ensures one { OneAnswer }
{}
