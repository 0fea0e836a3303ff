// Laws of the definitions.
ghost use Rattle.vref.specs.Laws.{BothWays, DirectoriesDiffer, FilesListed, ListedOnce, NoneFromItself, RowBelowRow, RowOfRoot, TooManyBothWays};

/// The laws hold, of all objects and all trees.
pub fn hold_laws()
    ensures itself { NoneFromItself }
    ensures both { BothWays }
    ensures too_many { TooManyBothWays }
    ensures directories { DirectoriesDiffer }
    ensures files { FilesListed }
    ensures row_of_root { RowOfRoot }
    ensures row_below { RowBelowRow }
    ensures once { ListedOnce }
{}
