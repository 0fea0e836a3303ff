// What holds of the definitions themselves.
ghost use Rattle.shell_words.specs.Spelling.{ReadIsSpelled, SpelledIsRead};

/// The words that spell a command are read as it, and no others; a call does nothing.
pub fn hold_laws()
    ensures spelled { SpelledIsRead }
    ensures read { ReadIsSpelled }
{}
