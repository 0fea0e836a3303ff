// What the rules say of changes of refs.
ghost use Rattle.std.specs.Prelude.{◌≡◌, ◌++◌, IfOk, IfSome, Option, true};
ghost use Rattle.rule_compile.specs.Patterns.{AreTrue, Patterns};
ghost use Rattle.access_check.specs.Verdicts.{decide, holds_vref};
ghost use Rattle.vref.specs.Facts.{AreFacts};
ghost use Rattle.update_check.specs.Check.{asked_by};
ghost use Rattle.update_check.specs.PathVerdicts.{IsOfChange, SaysOfTrees};
ghost use Rattle.update_check.specs.Rules.{RulesSay, SaysIf, SaysOfPaths, letter_for, said_of_merge, said_of_paths, said_of_ref, said_of_virtual};

use crate::Refusal;
use crate::path_verdicts::{PathVerdicts, TreeChange};
use access_check::{
    Flags, Letter, Policy, RepoName, UserName, Verdict, Vref, Wild, decide, flags_of, holds_vref,
    letter_of,
};
use ancestry::Facts;
use base_types::{NoMemory, Text};
use ref_store::{Command, Lens};
use std::alloc::Global;
use std::marker::Model;
use vref::{PathList, Paths, changed_paths, root_of};

const MERGE_CHECK: &[u8] = b"VREF/MERGE-CHECK/";

const NAME: &[u8] = b"VREF/NAME/";

/// The rules for changes of refs by one user in one repository, among the objects of a lens. What is the same
/// for all changes is found once, when it is made; and what is said of changed paths, once for each pair of
/// trees and letter.
#[derive(Drop)]
pub struct UpdateCheck<'a> {
    policy: &'a Policy,
    wild: &'a Wild,
    repo: &'a RepoName,
    user: &'a UserName,
    lens: &'a Lens,
    flags: Flags,
    asks_merge_check: bool,
    asks_paths: bool,
    of_paths: PathVerdicts,
}

impl<'a> Model for UpdateCheck<'a> {
    ghost use Rattle.update_check.specs.Check.{CheckView, IsFoundOf};
    ghost use Rattle.update_check.specs.PathVerdicts.{AreRight};

    ghost Value = { CheckView };

    ghost view = { λ c. record { flat = c.policy.now; wild = c.wild.now; repo = c.repo.now; user = c.user.now; objects = c.lens.now } };

    ghost invariant = { λ c. IsFoundOf c.policy.now c.wild.now c.repo.now c.user.now c.flags c.asks_merge_check c.asks_paths × AreRight (record { flat = c.policy.now; wild = c.wild.now; repo = c.repo.now; user = c.user.now; objects = c.lens.now }) c.of_paths };
}

impl<'a> UpdateCheck<'a> {
    /// It looks at all rules of the repository's name, of `@all` and of patterns.
    pub fn new(
        alloc: Global,
        policy: &'a Policy,
        wild: &'a Wild,
        repo: &'a RepoName,
        user: &'a UserName,
        lens: &'a Lens,
    ) -> UpdateCheck<'a>
        ensures { result ≡ record { flat = policy.now; wild = wild.now; repo = repo.now; user = user.now; objects = lens.now } }
    {
        UpdateCheck {
            policy,
            wild,
            repo,
            user,
            lens,
            flags: flags_of(policy, wild, repo),
            asks_merge_check: holds_vref(policy, wild, repo, user, Vref::MergeCheck),
            asks_paths: holds_vref(policy, wild, repo, user, Vref::Name),
            of_paths: PathVerdicts::new(alloc, lens),
        }
    }

    /// Why the rules don't let a change be made, if they don't.
    ///
    /// It costs the decisions on the ref and, where a merge is brought, on the merge check. Where a rule asks
    /// for changed paths, it costs what `vref::changed_paths` does, and a decision for each path up to the
    /// first that is denied; of trees that it was asked of before, with the same letter, a look-up.
    pub fn refusal(
        &mut self,
        alloc: Global,
        facts: &Facts,
        change: &Command,
    ) -> Result<Option<Refusal>, NoMemory>
        requires { AreFacts self.old.objects change.now.name change.now.old change.now.new facts.now }
        ensures says { IfOk result (λ found. (ps : Patterns) → AreTrue ps → RulesSay ps self.old.flat.rules (asked_by ps self.old) self.old.objects change.now found) }
        ensures check { self.new ≡ self.old }
    {
        let letter = self.letter(facts);
        if let Some(refusal) = self.refusal_of_ref(letter, &change.name)? {
            return Ok(Some(refusal));
        }
        if let Some(refusal) = self.refusal_of_merge(alloc, letter, facts.merge, &change.name)? {
            return Ok(Some(refusal));
        }
        self.refusal_of_paths(alloc, letter, change)
    }

    // The ref itself.
    fn refusal_of_ref(&self, letter: Letter, name: &Text) -> Result<Option<Refusal>, NoMemory>
        ensures { IfOk result (λ said. (ps : Patterns) → AreTrue ps → said ≡ said_of_ref ps self.now.flat.rules (asked_by ps self.now) letter name.now) }
    {
        let verdict = self.verdict(letter, name.bytes());
        if let Verdict::Allowed(_) = verdict {
            return Ok(None);
        }
        Ok(Some(Refusal::Denied {
            verdict,
            letter,
            name: name.clone()?,
        }))
    }

    // A merge that is brought, where a rule asks for the merge check.
    fn refusal_of_merge(
        &self,
        alloc: Global,
        letter: Letter,
        brings_merge: bool,
        name: &Text,
    ) -> Result<Option<Refusal>, NoMemory>
        ensures { IfOk result (λ said. (ps : Patterns) → AreTrue ps → said ≡ said_of_merge ps self.now.flat.rules (asked_by ps self.now) letter brings_merge name.now) }
    {
        if !self.asks(Vref::MergeCheck) || !brings_merge {
            return Ok(None);
        }
        Ok(self.refusal_of_virtual(letter, joined(alloc, MERGE_CHECK, name.bytes())?))
    }

    // The changed paths, where a rule asks for them.
    fn refusal_of_paths(
        &mut self,
        alloc: Global,
        letter: Letter,
        change: &Command,
    ) -> Result<Option<Refusal>, NoMemory>
        ensures says { IfOk result (λ said. (ps : Patterns) → AreTrue ps → SaysOfPaths ps self.old.flat.rules (asked_by ps self.old) self.old.objects letter change.now said) }
        ensures check { self.new ≡ self.old }
    {
        if !self.asks(Vref::Name) {
            return Ok(None);
        }
        self.refusal_of_asked(alloc, letter, change)
    }

    // The changed paths, as they were told before of the same trees, or found now.
    fn refusal_of_asked(
        &mut self,
        alloc: Global,
        letter: Letter,
        change: &Command,
    ) -> Result<Option<Refusal>, NoMemory>
        ensures says { IfOk result (λ said. (ps : Patterns) → AreTrue ps → SaysIf ps self.old.flat.rules (asked_by ps self.old) true self.old.objects letter change.now said) }
        ensures check { self.new ≡ self.old }
    {
        let trees = self.trees_of(letter, change);
        if let Some(said) = self.said_of(trees)? {
            return Ok(said);
        }
        let said = self.refusal_of_trees(alloc, letter, change)?;
        self.keep(trees, &said)?;
        Ok(said)
    }

    fn trees_of(&self, letter: Letter, change: &Command) -> TreeChange
        ensures { IsOfChange self.now.objects letter change.now result }
    {
        let old = root_of(self.lens, change.old);
        let new = root_of(self.lens, change.new);
        TreeChange::new(old, new, letter)
    }

    // What was said of these trees, if they were asked of before.
    fn said_of(&self, trees: TreeChange) -> Result<Option<Option<Refusal>>, NoMemory>
        ensures { IfOk result (λ found. IfSome found (SaysOfTrees self.now trees)) }
    {
        self.of_paths.get(trees)
    }

    fn keep(&mut self, trees: TreeChange, said: &Option<Refusal>) -> Result<(), NoMemory>
        requires { SaysOfTrees self.old trees said.now }
        ensures { self.new ≡ self.old }
    {
        self.of_paths.keep(trees, said)
    }

    // The changed paths of two trees.
    fn refusal_of_trees(
        &self,
        alloc: Global,
        letter: Letter,
        change: &Command,
    ) -> Result<Option<Refusal>, NoMemory>
        ensures { IfOk result (λ said. (ps : Patterns) → AreTrue ps → SaysIf ps self.now.flat.rules (asked_by ps self.now) true self.now.objects letter change.now said) }
    {
        match changed_paths(alloc, self.lens, change.old, change.new) {
            Paths::Listed(paths) => self.refusal_of_first(alloc, letter, &paths),
            Paths::TooMany => Ok(Some(Refusal::ManyPaths)),
            Paths::NoMemory => Err(NoMemory),
        }
    }

    // The first of these paths that a rule denies.
    fn refusal_of_first(
        &self,
        alloc: Global,
        letter: Letter,
        paths: &PathList<'_>,
    ) -> Result<Option<Refusal>, NoMemory>
        ensures { IfOk result (λ said. (ps : Patterns) → AreTrue ps → said ≡ said_of_paths ps self.now.flat.rules (asked_by ps self.now) letter paths.now) }
    {
        for place in 0..paths.len() {
            let path = paths.path(alloc, place)?;
            let name = joined(alloc, NAME, path.bytes())?;
            if let Some(refusal) = self.refusal_of_virtual(letter, name) {
                return Ok(Some(refusal));
            }
        }
        Ok(None)
    }

    // A virtual ref.
    fn refusal_of_virtual(&self, letter: Letter, name: Text) -> Option<Refusal>
        ensures { (ps : Patterns) → AreTrue ps → result ≡ said_of_virtual ps self.now.flat.rules (asked_by ps self.now) letter name }
    {
        let verdict = self.verdict(letter, name.bytes());
        if let Verdict::DeniedBy(_) = verdict {
            return Some(Refusal::Denied {
                verdict,
                letter,
                name,
            });
        }
        None
    }

    // The letter that a change needs.
    fn letter(&self, facts: &Facts) -> Letter
        ensures { (ps : Patterns) → AreTrue ps → result ≡ letter_for ps self.now.flat.rules (asked_by ps self.now) facts.now }
    {
        letter_of(self.flags, facts)
    }

    // Whether some rule asks for a virtual ref of this kind.
    fn asks(&self, which: Vref) -> bool
        ensures { (ps : Patterns) → AreTrue ps → result ≡ holds_vref ps self.now.flat.rules (asked_by ps self.now) which }
    {
        match which {
            Vref::MergeCheck => self.asks_merge_check,
            Vref::Name => self.asks_paths,
        }
    }

    fn verdict(&self, letter: Letter, name: &[u8]) -> Verdict
        ensures { (ps : Patterns) → AreTrue ps → result ≡ decide ps self.now.flat.rules (asked_by ps self.now) letter name.now }
    {
        decide(self.policy, self.wild, self.repo, self.user, letter, name)
    }
}

// The name of a virtual ref: the name of its kind, and behind it what is asked of it.
fn joined(alloc: Global, kind: &[u8], rest: &[u8]) -> Result<Text, NoMemory>
    ensures { IfOk result (λ name. name ≡ kind.now ++ rest.now) }
{
    let mut name = kind.to_vec(alloc)?;
    name.extend_from_slice(rest)?;
    Ok(Text::from(name))
}
