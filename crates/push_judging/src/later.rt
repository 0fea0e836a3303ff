// All commands of a push that was judged by its opening, by the rules just before it.
ghost use Rattle.std.specs.Prelude.{◌≡◌, IfOk};
ghost use Rattle.rule_compile.specs.Patterns.{AreTrue, Patterns};
ghost use Rattle.vref.specs.Facts.{AreFacts};
ghost use Rattle.push_judging.specs.Judged.{AreTold, IsJudgement, conf_kept};
ghost use Rattle.push_judging.specs.Rows.{IsCheckOf, TellsNow};

use crate::judging::{CommandOutcomes, Judged};
use crate::rows::{JudgedCommand, by_rules_now};
use ancestry::Facts;
use base_types::NoMemory;
use git_object::ObjectList;
use hub_state::{ConfInForce, Outcome, Pin, PushRequest};
use ref_store::Command;
use rule_compile::some_patterns_are_true;
use std::alloc::Global;
use update_check::UpdateCheck;
use wild_perms::Wild;

impl Judged {
    /// Judges the commands of which the opening tells nothing by the conf that is in force just before the
    /// push, and by the creator and the roles that the repository has then. What the opening tells stays.
    ///
    /// It costs what `UpdateCheck::refusal` does for each such command, and copies of what the opening tells.
    /// The facts are those that are known already.
    pub fn at_push(
        &self,
        alloc: Global,
        pin: &Pin,
        request: &PushRequest,
        conf: &ConfInForce,
        wild: &Wild,
    ) -> Result<CommandOutcomes, NoMemory>
        requires { IsJudgement pin.now.pinned request.now.pack request.now.commands self.now }
        ensures { IfOk result (λ told. AreTold (record { conf = conf.now; wild = wild.now }) pin.now.pinned request.now.pack request.now.commands told.outcomes.items told.confs.items) }
    {
        let mut check = UpdateCheck::new(
            alloc,
            conf.policy(),
            wild,
            pin.repo_name(),
            pin.user(),
            self.lens(),
        );
        let commands = request.commands.as_slice();
        judge_each_again(
            alloc,
            pin,
            &request.pack,
            commands,
            self,
            conf,
            wild,
            &mut check,
        )
    }
}

// What each command is told.
fn judge_each_again(
    alloc: Global,
    pin: &Pin,
    pack: &ObjectList,
    commands: &[Command],
    judged: &Judged,
    conf: &ConfInForce,
    wild: &Wild,
    check: &mut UpdateCheck<'_>,
) -> Result<CommandOutcomes, NoMemory>
    requires judged { IsJudgement pin.now.pinned pack.now commands.now judged.now }
    requires check { IsCheckOf (record { conf = conf.now; wild = wild.now }) pin.now.pinned check.old }
    requires among { check.old.objects ≡ judged.now.objects }
    ensures { IfOk result (λ told. AreTold (record { conf = conf.now; wild = wild.now }) pin.now.pinned pack.now commands.now told.outcomes.items told.confs.items) }
{
    // called for its clause that some answers about patterns are true, which the proof cites
    some_patterns_are_true();
    let said = judged.outcomes();
    let puts = judged.confs();
    let all_facts = judged.facts();
    let mut outcomes = Vec::with_capacity(alloc, commands.len())?;
    let mut confs = Vec::with_capacity(alloc, commands.len())?;
    for k in 0..commands.len() {
        let command = &commands[k];
        let JudgedCommand { outcome, conf } = judge_command_again(
            alloc,
            check,
            &all_facts[k],
            command,
            &said[k],
            &puts[k],
        )?;
        outcomes.push(outcome)?;
        confs.push(conf)?;
    }
    Ok(CommandOutcomes { outcomes, confs })
}

// What one command is told, of which the opening said this, and which would have put this conf in force.
fn judge_command_again(
    alloc: Global,
    check: &mut UpdateCheck<'_>,
    facts: &Facts,
    command: &Command,
    said: &Option<Outcome>,
    puts: &Option<ConfInForce>,
) -> Result<JudgedCommand, NoMemory>
    requires { AreFacts check.old.objects command.now.name command.now.old command.now.new facts.now }
    ensures check { check.new ≡ check.old }
    ensures said { IfOk result (λ told. (ps : Patterns) → AreTrue ps → TellsNow ps check.old check.old.objects command.now said.now told.outcome) }
    ensures conf { IfOk result (λ told. told.conf ≡ conf_kept puts.now told.outcome) }
{
    if let Some(outcome) = said {
        return Ok(JudgedCommand::refused(outcome.clone()?));
    }
    if let Some(outcome) = by_rules_now(alloc, check, facts, command)? {
        return Ok(JudgedCommand::refused(outcome));
    }
    Ok(JudgedCommand::free(conf_copy(puts)?))
}

fn conf_copy(conf: &Option<ConfInForce>) -> Result<Option<ConfInForce>, NoMemory>
    ensures { IfOk result (λ copy. copy ≡ conf.now) }
{
    match conf {
        Some(conf) => Ok(Some(conf.clone()?)),
        None => Ok(None),
    }
}
