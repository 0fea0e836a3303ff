// What holds of the conf of a new hub.
ghost use Rattle.setup_conf.specs.Laws.{SetupComesToRules};

/// The law of the conf of a new hub; a call does nothing.
pub fn hold_laws()
    ensures rules { SetupComesToRules }
{}
