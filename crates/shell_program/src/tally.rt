// What a log says of the sessions that led to it, in numbers.
ghost use Rattle.std.specs.Prelude.{◌≡◌, ◌+◌, ◌-◌, ◌^◌, count_by, min};
ghost use Rattle.hub_history.specs.Push.{is_done};
ghost use Rattle.shell_program.specs.Load.{denied_in, done_in, is_denied, is_refused, openings_denied, outcomes_of, refused_in};

use hub::{EnterKept, Entry, Event, Outcome};

/// How many commands of a log were done, how many were denied by the rules, openings among them, and how many
/// were refused otherwise. At 2^64 - 1 a count stands still.
#[derive(Clone, Copy, Debug)]
pub(crate) struct Tally {
    pub done: u64,
    pub denied: u64,
    pub refused: u64,
}

// The outcomes that an event records.
fn outcomes_of(event: &Event) -> &[Outcome]
    ensures { result.now ≡ outcomes_of event.now }
{
    match event {
        Event::Pushed { outcomes, .. } => outcomes.as_slice(),
        Event::Entered { .. } => &[],
        Event::Permitted { .. } => &[],
        Event::Looked { .. } => &[],
    }
}

fn openings_denied(event: &Event) -> u64
    ensures { result ≡ openings_denied event.now }
{
    match event {
        Event::Entered {
            answer: EnterKept::Denied(_),
            ..
        } => 1,
        _ => 0,
    }
}

fn is_denied(outcome: &Outcome) -> bool
    ensures { result ≡ is_denied outcome.now }
{
    matches!(outcome, Outcome::Denied { .. } | Outcome::DeniedNow { .. })
}

fn count_done(outcomes: &[Outcome]) -> u64
    ensures { result ≡ count_by is_done outcomes.now }
{
    outcomes.iter().filter(|it| it.is_done()).count() as u64
}

fn count_denied(outcomes: &[Outcome]) -> u64
    ensures { result ≡ count_by is_denied outcomes.now }
{
    outcomes.iter().filter(|it| is_denied(it)).count() as u64
}

fn count_refused(outcomes: &[Outcome]) -> u64
    ensures { result ≡ count_by is_refused outcomes.now }
{
    outcomes
        .iter()
        .filter(|it| !(it.is_done() || is_denied(it)))
        .count() as u64
}

/// Counts what a log records. It costs its length, and the outcomes of its pushes.
pub(crate) fn count_entries(log: &[Entry]) -> Tally
    ensures done { result.done ≡ min (done_in log.now) (2 ^ 64 - 1) }
    ensures denied { result.denied ≡ min (denied_in log.now) (2 ^ 64 - 1) }
    ensures refused { result.refused ≡ min (refused_in log.now) (2 ^ 64 - 1) }
{
    let mut tally = Tally {
        done: 0,
        denied: 0,
        refused: 0,
    };
    for entry in log {
        let outcomes = outcomes_of(&entry.event);
        tally.done = tally.done.saturating_add(count_done(outcomes));
        tally.denied = tally.denied.saturating_add(openings_denied(&entry.event));
        tally.denied = tally.denied.saturating_add(count_denied(outcomes));
        tally.refused = tally.refused.saturating_add(count_refused(outcomes));
    }
    tally
}
