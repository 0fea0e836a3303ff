// An opening.
ghost use Rattle.std.specs.Prelude.{◌≡◌, ◌≤◌, ◌++◌, length, codes, OnOk, IfOk};
ghost use Rattle.std.specs.Option.{option_copied};
ghost use Rattle.access_check.specs.Verdicts.{rule_of};
ghost use Rattle.hub_history.specs.State.{HasShortNames};
ghost use Rattle.hub_history.specs.History.{Stands};
ghost use Rattle.session_core.specs.Denials.{denial, open_text};
ghost use Rattle.session_core.specs.End.{TellsEnd, TellsLink, outcome_of};
ghost use Rattle.session_core.specs.Gate.{LetsIn, place_entered};
ghost use Rattle.session_core.specs.Opening.{StandsSomewhere, entering};
ghost use Rattle.session_core.specs.Packets.{refuse};
ghost use Rattle.session_core.specs.Parts.{EndsLink};
ghost use Rattle.session_core.specs.Rulebook.{RunsByRulebook};

use crate::denials::push_denial;
use crate::end::SessionEnd;
use crate::packets::refuse;
use access_check::{Policy, Request, Rule};
use base_types::NoMemory;
use conf_lex::{RepoName, UserName};
use hub::{Desk, Entered, Pin, Verdict, Want};
use hub_history::hold_laws;
use pktline_core::Link;
use std::alloc::Global;

// The text of a denied opening.
fn denied_text(
    alloc: Global,
    repo: &RepoName,
    user: &UserName,
    want: Want,
    rule: Option<&Rule>,
) -> Result<Vec<u8>, NoMemory>
    ensures text { IfOk result (λ v. v.items ≡ codes "ERR " ++ denial (open_text want) repo.now user.now (option_copied rule.entry)) }
    ensures size { IfOk result (λ v. length v.items ≤ 65516) }
{
    let mut text = Vec::from_slice(alloc, b"ERR ")?;
    push_denial(alloc, &mut text, &Request::Open(want), repo, user, rule)?;
    Ok(text)
}

fn refuse_denied<L: Link>(
    alloc: Global,
    link: &mut L,
    repo: &RepoName,
    user: &UserName,
    want: Want,
    verdict: Verdict,
    policy: &Policy,
) -> SessionEnd
    ensures runs { EndsLink {A = Unit {0}} (L.state link.old) (L.state link.new) (refuse (codes "ERR " ++ denial (open_text want) repo.now user.now (rule_of policy.now.rules verdict)) SessionEnd.Denied) result }
    ensures tells { TellsEnd (L.state link.old) (L.state link.new) result }
{
    match denied_text(alloc, repo, user, want, verdict.rule(policy)) {
        Ok(text) => refuse(link, &text, SessionEnd::Denied),
        Err(_) => SessionEnd::NoMemory,
    }
}

/// Opens a repository. The names of the refs that the pin has are short.
pub fn enter<L: Link, K: Desk>(
    alloc: Global,
    link: &mut L,
    desk: &mut K,
    user: &UserName,
    repo: &RepoName,
    want: Want,
) -> Result<Pin, SessionEnd>
    ensures runs { RunsByRulebook (L.state link.old) (L.state link.new) (K.view desk.old) (K.view desk.new) (λ book. entering book ((K.view desk.old).admin) user.now repo.now want) (outcome_of result) }
    ensures tells { TellsLink (L.state link.old) (L.state link.new) result }
    ensures same { OnOk result (L.state link.new ≡ L.state link.old) }
    ensures stands { IfOk result (λ pin. Stands pin (K.view desk.new).admin (K.view desk.new).seen) }
    ensures want { IfOk result (λ pin. pin.pinned.want ≡ want) }
    ensures names { IfOk result (λ pin. HasShortNames pin.pinned.repository.refs) }
    ensures somewhere { IfOk result (λ pin. StandsSomewhere pin) }
    ensures lets_in { LetsIn (K.view desk.old) (K.view desk.new) (place_entered result) }
    ensures goes { K.goes_on desk.old desk.new }
{
    // called for its clauses that the names of refs stay short, and that there is one list of rules in force
    hold_laws();
    match desk.enter(alloc, user, repo, want) {
        Entered::Granted(pin) => Ok(pin),
        Entered::Created(pin) => Ok(pin),
        Entered::Denied(verdict, conf) => Err(refuse_denied(
            alloc,
            link,
            repo,
            user,
            want,
            verdict,
            conf.policy(),
        )),
        Entered::NoRepo => Err(refuse(link, b"ERR no such repository", SessionEnd::NoRepo)),
        Entered::NoMemory => Err(SessionEnd::NoMemory),
    }
}
