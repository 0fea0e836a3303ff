// Whether an event lasts.
ghost use Rattle.std.specs.Prelude.{◌≡◌};
ghost use Rattle.std.specs.List.{list_any};
ghost use Rattle.hub_history.specs.Push.{is_done};
ghost use Rattle.lasting_events.specs.Lasting.{lasts, opening_lasts};

use hub_history::{EnterKept, Event, OutcomeList, PermsKept, Want};

/// Whether an event lasts: it is an opening that made its repository, one for writing that was granted, a
/// push of which a command is done, or a change of roles that is done.
pub fn lasts(event: &Event) -> bool
    ensures { result ≡ lasts event.now }
{
    match event {
        Event::Entered { want, answer, .. } => opening_lasts(*answer, *want),
        Event::Pushed { outcomes, .. } => has_done(outcomes),
        Event::Permitted { answer, .. } => matches!(answer, PermsKept::Changed),
        Event::Looked { .. } => false,
    }
}

fn opening_lasts(answer: EnterKept, want: Want) -> bool
    ensures { result ≡ opening_lasts answer want }
{
    match answer {
        EnterKept::Created => true,
        EnterKept::Granted => matches!(want, Want::Write),
        EnterKept::Denied(_) => false,
        EnterKept::NoRepo => false,
    }
}

// Whether one of the outcomes is that a command is done.
fn has_done(outcomes: &OutcomeList) -> bool
    ensures { result ≡ list_any is_done outcomes.now }
{
    outcomes.as_slice().iter().any(|outcome| outcome.is_done())
}
