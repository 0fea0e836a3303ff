// What holds of the definitions themselves.
ghost use Rattle.conf_lex.specs.Laws.{CleanStaysClean, CommentsHaveNoEffect, PermTextsAreRead, PlacesAreOffsets, SpellingsAreRead, StatementsHaveGoodWords};

/// The laws of lines, statements and permissions; a call does nothing.
pub fn hold_laws()
    ensures clean { CleanStaysClean }
    ensures comments { CommentsHaveNoEffect }
    ensures spellings { SpellingsAreRead }
    ensures words { StatementsHaveGoodWords }
    ensures permissions { PermTextsAreRead }
    ensures places { PlacesAreOffsets }
{}
