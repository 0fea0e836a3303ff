// A push that is judged again outside of its turn: its repository got another creator or other roles since
// the opening.
ghost use Rattle.std.specs.Prelude.{◌≡◌, ◌≢◌, IfOk, IfSome, None, OnOk, false, true};
ghost use Rattle.push_judging.specs.Again.{IsJudgedBy, TellsAgain};
ghost use Rattle.push_judging.specs.Judged.{IsJudgement};

use crate::judging::{Again, CommandOutcomes, Judged};
use base_types::NoMemory;
use conf_lex::UserName;
use hub_state::{Pin, PushRequest};
use std::alloc::Global;
use wild_perms::{PermsAnswer, RoleEntry, Wild};

impl Judged {
    /// Judges the push by the conf at its opening once more, and by this creator and these roles, and keeps
    /// what its commands are told by them in place of what it kept before. It costs what `at_push` does.
    pub fn judge_again(
        &mut self,
        alloc: Global,
        pin: &Pin,
        request: &PushRequest,
        wild: Wild,
    ) -> Result<(), NoMemory>
        requires { IsJudgement pin.now.pinned request.now.pack request.now.commands self.old }
        ensures judged { IsJudgement pin.now.pinned request.now.pack request.now.commands self.new }
        ensures kept { OnOk result (IsJudgedBy self.new wild) }
    {
        let told = self.at_push(alloc, pin, request, pin.conf(), &wild)?;
        self.again = Some(Again { wild, told });
        Ok(())
    }

    /// Whether the push was judged again by this creator and these roles. Without a creator, whose repository
    /// has no roles that could change, it is told that it wasn't. It costs the roles of both.
    pub fn is_judged_by(&self, wild: &Wild) -> Result<bool, NoMemory>
        ensures is { IfOk result (λ is. is ≡ true → IsJudgedBy self.now wild.now) }
        ensures not { IfOk result (λ is. is ≡ false → IsJudgedBy self.now wild.now → wild.now.creator ≡ None) }
    {
        match &self.again {
            Some(again) => are_alike(&again.wild, wild),
            None => Ok(false),
        }
    }

    /// What the commands are told, if the push was judged again by this creator and these roles; it isn't
    /// kept any longer then.
    pub fn take_again(&mut self, wild: &Wild) -> Result<Option<CommandOutcomes>, NoMemory>
        ensures told { IfOk result (λ found. IfSome found (TellsAgain self.old wild.now)) }
        ensures before { self.new.before ≡ self.old.before }
        ensures objects { self.new.objects ≡ self.old.objects }
        ensures judged { IfOk result (λ found. found ≡ None → self.new ≡ self.old) }
        ensures none { IfOk result (λ found. found ≡ None → IsJudgedBy self.old wild.now → wild.now.creator ≡ None) }
    {
        if !self.is_judged_by(wild)? {
            return Ok(None);
        }
        match self.again.take() {
            Some(again) => Ok(Some(again.told)),
            None => unreachable!(),
        }
    }
}

// Whether two repositories have one creator and the same roles. That two without a creator do isn't told.
fn are_alike(one: &Wild, other: &Wild) -> Result<bool, NoMemory>
    ensures are { IfOk result (λ are. are ≡ true → one.now ≡ other.now) }
    ensures not { IfOk result (λ are. are ≡ false → one.now ≡ other.now → other.now.creator ≡ None) }
{
    let Some(creator) = one.creator() else {
        return Ok(false);
    };
    let Some(its) = other.creator() else {
        return Ok(false);
    };
    if !is_same_user(creator, its) {
        return Ok(false);
    }
    let PermsAnswer::Listed(roles) = one.list(creator) else {
        return Err(NoMemory);
    };
    let PermsAnswer::Listed(others) = other.list(its) else {
        return Err(NoMemory);
    };
    Ok(are_same(roles.as_slice(), others.as_slice()))
}

fn are_same(roles: &[RoleEntry], others: &[RoleEntry]) -> bool
    ensures are { result ≡ true → roles.now ≡ others.now }
    ensures not { result ≡ false → roles.now ≢ others.now }
{
    if roles.len() != others.len() {
        return false;
    }
    for k in 0..roles.len() {
        if !is_same(&roles[k], &others[k]) {
            return false;
        }
    }
    true
}

fn is_same(one: &RoleEntry, other: &RoleEntry) -> bool
    ensures is { result ≡ true → one.now ≡ other.now }
    ensures not { result ≡ false → one.now ≢ other.now }
{
    one.role.bytes() == other.role.bytes() && one.user.bytes() == other.user.bytes()
}

fn is_same_user(one: &UserName, other: &UserName) -> bool
    ensures is { result ≡ true → one.now ≡ other.now }
    ensures not { result ≡ false → one.now ≢ other.now }
{
    one.bytes() == other.bytes()
}
