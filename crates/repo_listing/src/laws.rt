// What holds of the definitions themselves.
ghost use Rattle.repo_listing.specs.Laws.{CreatedAreListed, PatternsAreListed, PatternsAreOnce, PatternsKeepOrder, ReposAreListed};

/// The laws of listings; a call does nothing.
pub fn hold_laws()
    ensures repos { ReposAreListed }
    ensures patterns { PatternsAreListed }
    ensures once { PatternsAreOnce }
    ensures order { PatternsKeepOrder }
    ensures created { CreatedAreListed }
{}
