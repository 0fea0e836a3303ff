// Which questions are asked, in which order, and what each is answered.
ghost use Rattle.std.specs.Prelude.{◌≡◌, ◌<◌, None, Some, slice_get};
ghost use Rattle.std.specs.Bool.{OnTrue};
ghost use Rattle.rule_compile.specs.Patterns.{AreTrue, Patterns};
ghost use Rattle.access_check.specs.Verdicts.{decide};
ghost use Rattle.access_report.specs.Lists.{count};
ghost use Rattle.access_report.specs.Answers.{IsKnown, IsOf, Remembers, about_at, answered, asker, change_at, facts_of, flags_in, on_ref, opening, place_at, question_at, question_of};

use crate::lists::{AskedRepo, Questions};
use access_check::{
    Base, Change, Facts, Flags, Letter, Policy, Verdict, Want, decide, first_stage, flags_of,
    letter_of,
};
use conf_lex::UserName;
use ref_store::RefName;

/// What is asked of a repository and a user. A change is one of the ref at this place of its list.
#[derive(Clone, Copy, Debug, PartialEq, Eq)]
pub enum About {
    /// Opening the repository for reading.
    Read,
    /// Opening it for writing.
    Write,
    /// Creating the ref.
    Create(u32),
    /// Moving it forward.
    Forward(u32),
    /// Rewinding it.
    Rewind(u32),
    /// Deleting it.
    Delete(u32),
}

/// A question, with its answer. The repository and the user are those at these places of their lists.
#[derive(Clone, Copy, Debug, PartialEq, Eq)]
pub struct Question {
    pub repo: u32,
    pub user: u32,
    pub about: About,
    /// What the change needs. An opening has `W`.
    pub letter: Letter,
    pub verdict: Verdict,
}

// What is asked at a place.
#[derive(Clone, Copy)]
pub(crate) struct Place {
    repo: u32,
    user: u32,
    about: About,
}

// What is asked at a place, and of whom.
#[derive(Clone, Copy)]
pub(crate) struct Subject<'a> {
    place: Place,
    repo: &'a AskedRepo,
    user: &'a UserName,
}

// What a question is answered.
#[derive(Clone, Copy)]
pub(crate) struct Answer {
    letter: Letter,
    verdict: Verdict,
}

// The letters in force in the repository at a place.
#[derive(Clone, Copy)]
pub(crate) struct KnownFlags {
    repo: u32,
    flags: Flags,
}

// What decides over a change of the ref at a place that needs a letter.
#[derive(Clone, Copy)]
pub(crate) struct KnownVerdict {
    repo: u32,
    user: u32,
    name: u32,
    letter: Letter,
    verdict: Verdict,
}

/// What is remembered from one question to the next, so that a repository's letters are found once, and a
/// verdict once for changes of a ref that need the same letter.
#[derive(Clone, Copy)]
pub(crate) struct Memo {
    flags: Option<KnownFlags>,
    verdict: Option<KnownVerdict>,
}

/// The question at a place, from 0, of all questions, or `None` behind the last: repository by repository, in
/// each user by user; of both reading and writing, and then the four changes of each ref. It takes no memory,
/// and looks at all rules of the repository.
pub fn questions(policy: &Policy, asked: &Questions, at: u64) -> Option<Question>
    ensures { (ps : Patterns) → AreTrue ps → result ≡ question_at ps policy.now asked.now at }
{
    Memo::new().question(policy, asked, at)
}

impl Memo {
    pub(crate) fn new() -> Memo
        ensures { result ≡ record { flags = None; verdict = None } }
    {
        Memo {
            flags: None,
            verdict: None,
        }
    }

    /// The question at a place.
    #[tactic(auto, unfolding(crate::specs::Answers::question_at))]
    pub(crate) fn question(
        &mut self,
        policy: &Policy,
        asked: &Questions,
        at: u64,
    ) -> Option<Question>
        requires { (ps : Patterns) → AreTrue ps → Remembers ps policy.now asked.now self.old }
        ensures question { (ps : Patterns) → AreTrue ps → result ≡ question_at ps policy.now asked.now at }
        ensures remembers { (ps : Patterns) → AreTrue ps → Remembers ps policy.now asked.now self.new }
    {
        if at >= asked.count() {
            return None;
        }
        self.question_of(policy, asked, place_at(asked, at))
    }

    // What is asked there.
    fn question_of(&mut self, policy: &Policy, asked: &Questions, place: Place) -> Option<Question>
        requires { (ps : Patterns) → AreTrue ps → Remembers ps policy.now asked.now self.old }
        ensures question { (ps : Patterns) → AreTrue ps → result ≡ question_of ps policy.now asked.now place }
        ensures remembers { (ps : Patterns) → AreTrue ps → Remembers ps policy.now asked.now self.new }
    {
        let Some(repo) = asked.repos().get(place.repo as usize) else {
            return None;
        };
        let Some(user) = asked.users().get(place.user as usize) else {
            return None;
        };
        let Some(answer) = self.answer(policy, asked, &Subject { place, repo, user }) else {
            return None;
        };
        Some(Question {
            repo: place.repo,
            user: place.user,
            about: place.about,
            letter: answer.letter,
            verdict: answer.verdict,
        })
    }

    // What a question is answered.
    fn answer(
        &mut self,
        policy: &Policy,
        asked: &Questions,
        subject: &Subject<'_>,
    ) -> Option<Answer>
        requires known { IsOf asked.now subject.now }
        requires remembers { (ps : Patterns) → AreTrue ps → Remembers ps policy.now asked.now self.old }
        ensures answer { (ps : Patterns) → AreTrue ps → result ≡ answered ps policy.now asked.now subject.now.repo.now subject.now.user.now subject.now.place.about }
        ensures remembers { (ps : Patterns) → AreTrue ps → Remembers ps policy.now asked.now self.new }
    {
        match subject.place.about {
            About::Read => Some(opening(policy, subject, Want::Read)),
            About::Write => Some(opening(policy, subject, Want::Write)),
            About::Create(at) => { self.on_ref(policy, asked, subject, Change::Create, false, at) }
            About::Forward(at) => { self.on_ref(policy, asked, subject, Change::Update, true, at) }
            About::Rewind(at) => { self.on_ref(policy, asked, subject, Change::Update, false, at) }
            About::Delete(at) => { self.on_ref(policy, asked, subject, Change::Delete, false, at) }
        }
    }

    // A change of the ref at a place.
    fn on_ref(
        &mut self,
        policy: &Policy,
        asked: &Questions,
        subject: &Subject<'_>,
        change: Change,
        forward: bool,
        at: u32,
    ) -> Option<Answer>
        requires known { IsOf asked.now subject.now }
        requires remembers { (ps : Patterns) → AreTrue ps → Remembers ps policy.now asked.now self.old }
        ensures answer { (ps : Patterns) → AreTrue ps → result ≡ on_ref ps policy.now asked.now subject.now.repo.now subject.now.user.now change forward at }
        ensures remembers { (ps : Patterns) → AreTrue ps → Remembers ps policy.now asked.now self.new }
    {
        let name = asked.refs().get(at as usize)?;
        let flags = self.flags(policy, asked, subject);
        let letter = letter_of(flags, &facts_of(change, forward, name.bytes()));
        let verdict = self.verdict(policy, asked, subject, letter, at, name);
        Some(Answer { letter, verdict })
    }

    // The letters in force in the repository.
    fn flags(&mut self, policy: &Policy, asked: &Questions, subject: &Subject<'_>) -> Flags
        requires known { IsOf asked.now subject.now }
        requires remembers { (ps : Patterns) → AreTrue ps → Remembers ps policy.now asked.now self.old }
        ensures flags { (ps : Patterns) → AreTrue ps → result ≡ flags_in ps policy.now subject.now.repo.now }
        ensures remembers { (ps : Patterns) → AreTrue ps → Remembers ps policy.now asked.now self.new }
    {
        if let Some(known) = self.flags {
            if known.repo == subject.place.repo {
                return known.flags;
            }
        }
        let flags = flags_of(policy, &subject.repo.wild, &subject.repo.name);
        let repo = subject.place.repo;
        self.flags = Some(KnownFlags { repo, flags });
        flags
    }

    // What decides over a change of the ref at a place.
    fn verdict(
        &mut self,
        policy: &Policy,
        asked: &Questions,
        subject: &Subject<'_>,
        letter: Letter,
        at: u32,
        name: &RefName,
    ) -> Verdict
        requires known { IsOf asked.now subject.now }
        requires name { slice_get asked.now.refs at ≡ Some name.now }
        requires remembers { (ps : Patterns) → AreTrue ps → Remembers ps policy.now asked.now self.old }
        ensures verdict { (ps : Patterns) → AreTrue ps → result ≡ decide ps policy.now.rules (asker ps policy.now subject.now.repo.now subject.now.user.now) letter name.now }
        ensures remembers { (ps : Patterns) → AreTrue ps → Remembers ps policy.now asked.now self.new }
    {
        if let Some(known) = self.verdict {
            if is_known(&known, &subject.place, letter, at) {
                return known.verdict;
            }
        }
        let verdict = decide(
            policy,
            &subject.repo.wild,
            &subject.repo.name,
            subject.user,
            letter,
            name.bytes(),
        );
        self.verdict = Some(KnownVerdict {
            repo: subject.place.repo,
            user: subject.place.user,
            name: at,
            letter,
            verdict,
        });
        verdict
    }
}

// Whether this is known of a place, a letter and a ref.
fn is_known(known: &KnownVerdict, place: &Place, letter: Letter, name: u32) -> bool
    ensures { OnTrue result (IsKnown known.now place.now letter name) }
{
    if known.repo != place.repo || known.user != place.user {
        return false;
    }
    known.name == name && known.letter == letter
}

// What stands at a place.
#[tactic(auto, unfolding(crate::specs::Answers::place_at))]
fn place_at(asked: &Questions, at: u64) -> Place
    requires { at < count asked.now }
    ensures { result ≡ place_at asked.now at }
{
    let per_user = asked.per_user();
    let users = asked.users().len() as u64;
    Place {
        repo: (at / (users * per_user)) as u32,
        user: (at / per_user % users) as u32,
        about: about_at((at % per_user) as u32),
    }
}

// What is asked of a repository and a user.
fn about_at(at: u32) -> About
    ensures { result ≡ about_at at }
{
    match at {
        0 => About::Read,
        1 => About::Write,
        _ => change_at((at - 2) / 4, (at - 2) % 4),
    }
}

fn change_at(name: u32, at: u32) -> About
    ensures { result ≡ change_at name at }
{
    match at {
        0 => About::Create(name),
        1 => About::Forward(name),
        2 => About::Rewind(name),
        _ => About::Delete(name),
    }
}

fn opening(policy: &Policy, subject: &Subject<'_>, want: Want) -> Answer
    ensures { (ps : Patterns) → AreTrue ps → result ≡ opening ps policy.now subject.now.repo.now subject.now.user.now want }
{
    let repo = subject.repo;
    Answer {
        letter: Letter {
            base: Base::Write,
            merge: false,
        },
        verdict: first_stage(policy, &repo.wild, &repo.name, subject.user, want),
    }
}

fn facts_of(change: Change, forward: bool, name: &[u8]) -> Facts
    ensures { result ≡ facts_of change forward name.now }
{
    Facts {
        change,
        tag: name.starts_with(b"refs/tags/"),
        commits: true,
        forward,
        merge: false,
    }
}
