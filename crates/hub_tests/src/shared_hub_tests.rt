//! Callers on threads of their own, and the log that they leave.
ghost use Rattle.std.specs.Prelude.{◌≡◌};
ghost use Rattle.turn_lock.specs.Lock.{IsSamePass};
ghost use Rattle.shared_hub.specs.Shared.{IsHubPass};

mod caller;
mod objects;

use caller::{Act, Asks, Caller, FirstOutcome, Job, job_of};
use git_object::ObjectId;
use hub::{EnterKept, Entry, Event, Hub, UserName};
use shared_hub::{EventHub, NoMemory, SharedHub, SharedPass};
use std::alloc::Global;
use std::process::Abort;
use std::sync::Wait;
use std::thread::{Threads, join};

// ---- two callers

// Both act at once, the first on a new thread, and both have come to their end.
fn at_once<'a, 'b, R: Threads + Wait + Sync, H: EventHub + Send>(
    rt: &R,
    alloc: Global,
    callers: (Caller<'a, R, H>, Caller<'b, R, H>),
    acts: (Act, Act),
) -> (Caller<'a, R, H>, Caller<'b, R, H>)
    ensures { IsSamePass callers.entry.0 result.0 × IsSamePass callers.entry.1 result.1 }
{
    let (one, other) = callers;
    let (act, other_act) = acts;
    join(
        rt,
        move ||
            ensures { IsSamePass one.entry result }
        { one.act(alloc, act) },
        move ||
            ensures { IsSamePass other.entry result }
        { other.act(alloc, other_act) },
    )
}

// What a caller leaves: its pass, and what its last push was told.
type Left<H> = (SharedPass<H>, FirstOutcome);

// What two callers do, step by step: in each both act at once, and the next begins when both have come to
// their end.
fn in_steps<'a, R: Threads + Wait + Sync, H: EventHub + Send>(
    rt: &'a R,
    alloc: Global,
    shared: &'a SharedHub<H>,
    passes: (SharedPass<H>, SharedPass<H>),
    jobs: (&'a Job, &'a Job),
    steps: &[(Act, Act)],
) -> (Left<H>, Left<H>)
    requires of_hub { (passes.0.lock ≡ shared.now) × (passes.1.lock ≡ shared.now) }
    requires hub { IsHubPass passes.0 × IsHubPass passes.1 }
    ensures one { IsSamePass passes.0 result.0.0 × IsHubPass result.0.0 }
    ensures other { IsSamePass passes.1 result.1.0 × IsHubPass result.1.0 }
{
    let (first, second) = passes;
    let one = Caller::new(rt, shared, first, jobs.0);
    let mut callers = (one, Caller::new(rt, shared, second, jobs.1));
    for acts in steps {
        callers = at_once(rt, alloc, callers, *acts);
    }
    let (one, other) = callers;
    (one.into_parts(), other.into_parts())
}

// What two callers leave of a hub, and what they are told.
fn two_callers<R: Threads + Wait + Sync>(
    rt: &R,
    alloc: Global,
    hub: Hub,
    jobs: (&Job, &Job),
    steps: &[(Act, Act)],
) -> Result<(Hub, FirstOutcome, FirstOutcome), NoMemory> {
    let (shared, mut first) = SharedHub::new(alloc, hub)?;
    let second = shared.split(alloc, &mut first)?;
    let (one, other) = in_steps(rt, alloc, &shared, (first, second), jobs, steps);
    let (mut first, told) = one;
    let (second, other_told) = other;
    shared.join(&mut first, second);
    Ok((shared.close(first), told, other_told))
}

// The openings stand before either push. Only where the pushes aren't at once the second caller opens again.
static AT_ONCE: [(Act, Act); 2] = [(Act::Open, Act::Open), (Act::Push, Act::Push)];

static IN_TURN: [(Act, Act); 4] = [
    (Act::Open, Act::Open),
    (Act::Push, Act::Rest),
    (Act::Rest, Act::Push),
    (Act::Rest, Act::Open),
];

// What two callers ask, whether they push at once, the numbers of their outcomes, and how many openings are
// denied.
type Row = (Asks, Asks, bool, u8, u8, usize);

static ROWS: [Row; 3] = [
    (
        (
            "ann",
            "gitolite-admin",
            "refs/heads/master",
            "repo testing\n    RW = cat\n",
            b'1',
        ),
        ("alice", "testing", "refs/heads/master", "", b'2'),
        false,
        1,
        15,
        1,
    ),
    (
        (
            "ann",
            "gitolite-admin",
            "refs/heads/master",
            "repo gitolite-admin\n    RW = ann\nrepo app\n    RW = bob\n",
            b'1',
        ),
        (
            "ann",
            "gitolite-admin",
            "refs/heads/master",
            "repo gitolite-admin\n    RW = ann\nrepo app\n    RW = cat\n",
            b'2',
        ),
        false,
        1,
        11,
        0,
    ),
    (
        ("bob", "testing", "refs/heads/a", "", b'1'),
        ("cat", "testing", "refs/heads/a", "", b'2'),
        true,
        1,
        11,
        0,
    ),
];

// Whether two are told these numbers, in this order, and a stale one the other's new value.
fn are(one: &FirstOutcome, other: &FirstOutcome, new: ObjectId, numbers: (u8, u8)) -> bool {
    one.0 == numbers.0 && other.0 == numbers.1 && (other.0 != 11 || other.1 == new)
}

// How many of the entries are openings, how many of those are denied, and how many are pushes.
fn kinds(log: &[Entry]) -> (usize, usize, usize) {
    let (mut openings, mut denied, mut pushes) = (0usize, 0usize, 0usize);
    for entry in log {
        match &entry.event {
            Event::Entered { answer, .. } => {
                openings = openings.saturating_add(1);
                if matches!(answer, EnterKept::Denied(_)) {
                    denied = denied.saturating_add(1);
                }
            }
            Event::Pushed { .. } => pushes = pushes.saturating_add(1),
            _ => {}
        }
    }
    (openings, denied, pushes)
}

fn new_hub(rt: &impl Abort, alloc: Global) -> Hub {
    let ann = UserName::parse(alloc, b"ann").expect(rt, "memory for a name");
    let hub = Hub::start(alloc, &ann.expect(rt, "a user's name"));
    hub.expect(rt, "memory for a hub")
}

fn steps_of(at_once: bool) -> &'static [(Act, Act)] {
    if at_once { &AT_ONCE[..] } else { &IN_TURN[..] }
}

// Whether two callers that push these values are told what their row says.
fn are_told(told: (&FirstOutcome, &FirstOutcome), row: &Row, news: (ObjectId, ObjectId)) -> bool {
    let numbers = (row.3, row.4);
    are(told.0, told.1, news.0, numbers) || (row.2 && are(told.1, told.0, news.1, numbers))
}

// Whether their log has their openings and pushes.
fn has_entries(hub: &Hub, row: &Row) -> bool {
    let openings = if row.2 { 2 } else { 3 };
    kinds(hub.log().as_slice()) == (openings, row.5, 2)
}

// Two callers are told what their row says, and their log has their openings and pushes.
fn check_jobs<R: Threads + Wait + Abort + Sync>(
    rt: &R,
    alloc: Global,
    jobs: (&Job, &Job),
    row: &Row,
) {
    let left = two_callers(rt, alloc, new_hub(rt, alloc), jobs, steps_of(row.2));
    let (hub, told, other_told) = left.expect(rt, "memory for two callers");
    assert!(rt; are_told((&told, &other_told), row, (jobs.0.new, jobs.1.new)));
    assert!(rt; has_entries(&hub, row));
}

fn check_row<R: Threads + Wait + Abort + Sync>(rt: &R, alloc: Global, row: &Row) {
    let one = job_of(rt, alloc, &row.0);
    let other = job_of(rt, alloc, &row.1);
    check_jobs(rt, alloc, (&one, &other), row);
}

#[test]
fn two_callers_are_told_by_one_log(rt: HostRuntime) {
    for row in &ROWS {
        check_row(&rt, rt.alloc(), row);
    }
}

// ---- four callers

// Two pairs act at once, each caller on a thread of its own.
fn all_at_once<'a, R: Threads + Wait + Sync, H: EventHub + Send>(
    rt: &R,
    alloc: Global,
    early: (Caller<'a, R, H>, Caller<'a, R, H>),
    late: (Caller<'a, R, H>, Caller<'a, R, H>),
    act: Act,
) -> (
    (Caller<'a, R, H>, Caller<'a, R, H>),
    (Caller<'a, R, H>, Caller<'a, R, H>),
)
    ensures early { IsSamePass early.entry.0 result.0.0 × IsSamePass early.entry.1 result.0.1 }
    ensures late { IsSamePass late.entry.0 result.1.0 × IsSamePass late.entry.1 result.1.1 }
{
    join(
        rt,
        move ||
            ensures { IsSamePass early.entry.0 result.0 × IsSamePass early.entry.1 result.1 }
        { at_once(rt, alloc, early, (act, act)) },
        move ||
            ensures { IsSamePass late.entry.0 result.0 × IsSamePass late.entry.1 result.1 }
        { at_once(rt, alloc, late, (act, act)) },
    )
}

// A pair of callers.
fn pair<'a, R: Threads + Wait + Sync, H: EventHub>(
    rt: &'a R,
    shared: &'a SharedHub<H>,
    passes: (SharedPass<H>, SharedPass<H>),
    jobs: (&'a Job, &'a Job),
) -> (Caller<'a, R, H>, Caller<'a, R, H>)
    requires of_hub { (passes.0.lock ≡ shared.now) × (passes.1.lock ≡ shared.now) }
    requires hub { IsHubPass passes.0 × IsHubPass passes.1 }
    ensures { (result.0 ≡ passes.0) × (result.1 ≡ passes.1) }
{
    let (one, other) = passes;
    (
        Caller::new(rt, shared, one, jobs.0),
        Caller::new(rt, shared, other, jobs.1),
    )
}

// The passes of a pair.
fn passes_of<R: Wait, H: EventHub>(
    pair: (Caller<'_, R, H>, Caller<'_, R, H>),
) -> (SharedPass<H>, SharedPass<H>)
    ensures same { (result.0 ≡ pair.entry.0) × (result.1 ≡ pair.entry.1) }
    ensures hub { IsHubPass result.0 × IsHubPass result.1 }
{
    (pair.0.into_parts().0, pair.1.into_parts().0)
}

type Passes<H> = (
    (SharedPass<H>, SharedPass<H>),
    (SharedPass<H>, SharedPass<H>),
);

// Four callers at work.
fn work_all<'a, R: Threads + Wait + Sync, H: EventHub + Send>(
    rt: &'a R,
    alloc: Global,
    shared: &'a SharedHub<H>,
    passes: Passes<H>,
    jobs: &'a [Job; 4],
    rounds: u64,
) -> Passes<H>
    requires early { (passes.0.0.lock ≡ shared.now) × (passes.0.1.lock ≡ shared.now) }
    requires late { (passes.1.0.lock ≡ shared.now) × (passes.1.1.lock ≡ shared.now) }
    requires hub { IsHubPass passes.0.0 × IsHubPass passes.0.1 × IsHubPass passes.1.0 × IsHubPass passes.1.1 }
    ensures early { IsSamePass passes.0.0 result.0.0 × IsSamePass passes.0.1 result.0.1 }
    ensures late { IsSamePass passes.1.0 result.1.0 × IsSamePass passes.1.1 result.1.1 }
    ensures hub { IsHubPass result.0.0 × IsHubPass result.0.1 × IsHubPass result.1.0 × IsHubPass result.1.1 }
{
    let (early, late) = passes;
    let early = pair(rt, shared, early, (&jobs[0], &jobs[1]));
    let late = pair(rt, shared, late, (&jobs[2], &jobs[3]));
    let (early, late) = all_at_once(rt, alloc, early, late, Act::Work(rounds));
    (passes_of(early), passes_of(late))
}

// What four callers leave of a hub. The fourth pass is joined into the third.
fn four_callers<R: Threads + Wait + Sync>(
    rt: &R,
    alloc: Global,
    hub: Hub,
    jobs: &[Job; 4],
    rounds: u64,
) -> Result<Hub, NoMemory> {
    let (shared, mut first) = SharedHub::new(alloc, hub)?;
    let second = shared.split(alloc, &mut first)?;
    let third = shared.split(alloc, &mut first)?;
    let fourth = shared.split(alloc, &mut first)?;
    let passes = ((first, second), (third, fourth));
    let ((mut first, second), (mut third, fourth)) = work_all(
        rt, alloc, &shared, passes, jobs, rounds,
    );
    shared.join(&mut third, fourth);
    shared.join(&mut first, second);
    shared.join(&mut first, third);
    Ok(shared.close(first))
}

static JOBS: [Asks; 4] = [
    ("bob", "testing", "refs/heads/a", "", b'1'),
    ("bob", "testing", "refs/heads/b", "", b'2'),
    ("cat", "testing", "refs/heads/c", "", b'3'),
    ("ann", "testing", "refs/heads/d", "", b'4'),
];

// Whether an entry is a push of the opening at a place that is done, or no push.
fn is_done_of(entry: &Entry, opening: usize) -> bool {
    match &entry.event {
        Event::Pushed {
            place,
            outcomes,
            ..
        } => *place == opening as u64 && outcomes.as_slice().iter().all(|o| o.is_done()),
        _ => true,
    }
}

// How many entries bear the number, if each push among them is done, and is of the last opening of that
// number.
fn count_of(log: &[Entry], caller: u64) -> usize {
    let mut count: usize = 0;
    let mut opening: usize = 0;
    for place in 0..log.len() {
        let entry = &log[place];
        if entry.caller == caller {
            if !is_done_of(entry, opening) {
                return 0;
            }
            if matches!(entry.event, Event::Entered { .. }) {
                opening = place;
            }
            count = count.saturating_add(1);
        }
    }
    count
}

fn jobs_of(rt: &impl Abort, alloc: Global) -> [Job; 4] {
    [
        job_of(rt, alloc, &JOBS[0]),
        job_of(rt, alloc, &JOBS[1]),
        job_of(rt, alloc, &JOBS[2]),
        job_of(rt, alloc, &JOBS[3]),
    ]
}

// Whether each of four callers has so many entries.
fn have_entries(log: &[Entry], due: u64) -> bool {
    for caller in 0..4u64 {
        if count_of(log, caller) as u64 != due {
            return false;
        }
    }
    true
}

// Four callers leave all their entries, each pushing as often as the others.
fn check_order<R: Threads + Wait + Abort + Sync>(
    rt: &R,
    alloc: Global,
    jobs: &[Job; 4],
    rounds: u64,
) {
    let left = four_callers(rt, alloc, new_hub(rt, alloc), jobs, rounds);
    let hub = left.expect(rt, "memory for four callers");
    let due = rounds.saturating_mul(2).saturating_add(2);
    assert!(rt; have_entries(hub.log().as_slice(), due));
    // each has made its ref and deleted it in turn, as often as the other
    assert_eq!(rt; hub.ref_count(), 0);
}

#[test]
fn four_callers_leave_their_entries_in_order(rt: HostRuntime) {
    let jobs = jobs_of(&rt, rt.alloc());
    check_order(&rt, rt.alloc(), &jobs, 250);
}
