// What a line asks.
use crate::words::number_of;
use access_check::{Base, Change, Facts, Letter, Request, Vref, Want};

/// Who asks, and of which repository.
#[derive(Clone, Copy)]
pub(crate) struct Who<'a> {
    pub user: &'a [u8],
    pub repo: &'a [u8],
}

/// What a user wants to do.
#[derive(Clone, Copy)]
pub(crate) enum Deed<'a> {
    Request(Request<'a>),
    /// An opening of a repository that isn't there.
    Unborn(Want),
    /// Creating a repository that isn't there.
    Create,
}

/// The members of which group are asked for, as which subconf sees them, and before which place.
#[derive(Clone, Copy)]
pub(crate) struct Group<'a> {
    pub name: &'a [u8],
    pub before: usize,
    /// None is the main file.
    pub subconf: Option<&'a [u8]>,
}

/// A question about files, lines and groups.
#[derive(Clone, Copy)]
pub(crate) enum ConfQuestion<'a> {
    Lines,
    /// By the index of groups.
    Members(Group<'a>),
    /// The same by a walk over the lines.
    Walk(Group<'a>),
}

/// A question about all rules.
#[derive(Clone, Copy)]
pub(crate) enum PolicyQuestion {
    Rules,
    Groups,
    Repos,
}

/// A question about the rules of a repository.
#[derive(Clone, Copy)]
pub(crate) enum RepoQuestion<'a> {
    Numbers,
    DenyRules,
    /// Whether this word is a role there.
    Declares(&'a [u8]),
    Flags,
    Letter(Facts),
}

/// A question about what a user may do.
#[derive(Clone, Copy)]
pub(crate) enum UserQuestion<'a> {
    Vref(Vref),
    May(Deed<'a>),
    Denial(Request<'a>),
    Look,
}

/// A question about the rules.
#[derive(Clone, Copy)]
pub(crate) enum RuleQuestion<'a> {
    Policy(PolicyQuestion),
    Repo(&'a [u8], RepoQuestion<'a>),
    User(Who<'a>, UserQuestion<'a>),
    /// By which patterns a user may create repositories.
    Creatable(&'a [u8]),
}

pub(crate) fn conf_question<'a>(words: &[&'a [u8]]) -> Option<ConfQuestion<'a>> {
    let (word, rest) = words.split_first()?;
    match *word {
        b"lines" if rest.is_empty() => Some(ConfQuestion::Lines),
        b"members" => Some(ConfQuestion::Members(group_of(rest)?)),
        b"walk" => Some(ConfQuestion::Walk(group_of(rest)?)),
        _ => None,
    }
}

fn group_of<'a>(rest: &[&'a [u8]]) -> Option<Group<'a>> {
    let (name, before, subconf) = match rest {
        [name, before] => (*name, *before, None),
        [name, before, subconf] => (*name, *before, Some(*subconf)),
        _ => return None,
    };
    let before = number_of(before)?;
    Some(Group {
        name,
        before,
        subconf,
    })
}

pub(crate) fn rule_question<'a>(words: &[&'a [u8]]) -> Option<RuleQuestion<'a>> {
    match words {
        [word] => Some(RuleQuestion::Policy(policy_question(word)?)),
        [b"creatable", user] => Some(RuleQuestion::Creatable(user)),
        [word, repo] => Some(RuleQuestion::Repo(repo, repo_question(word)?)),
        [b"declares", role, repo] => {
            Some(RuleQuestion::Repo(repo, RepoQuestion::Declares(role)))
        }
        [b"letter", repo, change, facts @ ..] => Some(RuleQuestion::Repo(
            repo,
            RepoQuestion::Letter(facts_of(change, facts)?),
        )),
        [word, user, repo, rest @ ..] => Some(RuleQuestion::User(
            Who { user, repo },
            user_question(word, rest)?,
        )),
        _ => None,
    }
}

fn policy_question(word: &[u8]) -> Option<PolicyQuestion> {
    match word {
        b"rules" => Some(PolicyQuestion::Rules),
        b"groups" => Some(PolicyQuestion::Groups),
        b"repos" => Some(PolicyQuestion::Repos),
        _ => None,
    }
}

fn repo_question(word: &[u8]) -> Option<RepoQuestion<'static>> {
    match word {
        b"numbers" => Some(RepoQuestion::Numbers),
        b"deny-rules" => Some(RepoQuestion::DenyRules),
        b"flags" => Some(RepoQuestion::Flags),
        _ => None,
    }
}

fn user_question<'a>(word: &[u8], rest: &[&'a [u8]]) -> Option<UserQuestion<'a>> {
    match word {
        b"vref" => Some(UserQuestion::Vref(vref_of(rest)?)),
        b"look" if rest.is_empty() => Some(UserQuestion::Look),
        b"denial" => Some(UserQuestion::Denial(request_of(rest)?)),
        _ => Some(UserQuestion::May(deed_of(word, rest)?)),
    }
}

fn deed_of<'a>(word: &[u8], rest: &[&'a [u8]]) -> Option<Deed<'a>> {
    match (word, rest) {
        (b"open", [want]) => Some(Deed::Request(Request::Open(want_of(want)?))),
        (b"change", [_, _]) => Some(Deed::Request(request_of(rest)?)),
        (b"unborn", [want]) => Some(Deed::Unborn(want_of(want)?)),
        (b"create", []) => Some(Deed::Create),
        _ => None,
    }
}

// An opening, or a change of a ref that needs a letter.
fn request_of<'a>(rest: &[&'a [u8]]) -> Option<Request<'a>> {
    match rest {
        [want] => Some(Request::Open(want_of(want)?)),
        [letter, name] => Some(Request::Change(letter_of_word(letter)?, name)),
        _ => None,
    }
}

fn want_of(word: &[u8]) -> Option<Want> {
    match word {
        b"R" => Some(Want::Read),
        b"W" => Some(Want::Write),
        _ => None,
    }
}

fn vref_of(rest: &[&[u8]]) -> Option<Vref> {
    match rest {
        [b"NAME"] => Some(Vref::Name),
        [b"MERGE-CHECK"] => Some(Vref::MergeCheck),
        _ => None,
    }
}

// A letter as it is printed, as `W`, `+` or `CM`.
fn letter_of_word(word: &[u8]) -> Option<Letter> {
    let (first, rest) = word.split_first()?;
    let base = match *first {
        b'W' => Base::Write,
        b'+' => Base::Rewind,
        b'C' => Base::Create,
        b'D' => Base::Delete,
        _ => return None,
    };
    let merge = match rest {
        b"" => false,
        b"M" => true,
        _ => return None,
    };
    Some(Letter { base, merge })
}

fn facts_of(change: &[u8], words: &[&[u8]]) -> Option<Facts> {
    let mut facts = Facts {
        change: change_of(change)?,
        tag: false,
        commits: false,
        forward: false,
        merge: false,
    };
    for word in words {
        facts = with_fact(facts, word)?;
    }
    Some(facts)
}

fn change_of(word: &[u8]) -> Option<Change> {
    match word {
        b"create" => Some(Change::Create),
        b"delete" => Some(Change::Delete),
        b"update" => Some(Change::Update),
        _ => None,
    }
}

fn with_fact(facts: Facts, word: &[u8]) -> Option<Facts> {
    match word {
        b"tag" => Some(Facts { tag: true, ..facts }),
        b"commits" => Some(Facts {
            commits: true,
            ..facts
        }),
        b"forward" => Some(Facts {
            forward: true,
            ..facts
        }),
        b"merge" => Some(Facts {
            merge: true,
            ..facts
        }),
        _ => None,
    }
}
