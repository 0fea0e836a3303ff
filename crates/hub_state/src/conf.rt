// The conf in force, with its rules.
ghost use Rattle.std.specs.Prelude.{◌≡◌, IfOk, None, Ok, Some};
ghost use Rattle.rule_compile.specs.Patterns.{AreTrue, Patterns};
ghost use Rattle.hub_history.specs.Conf.{AreInForce, ComesTo};

use base_types::NoMemory;
use conf_lex::UserName;
use git_object::ObjectId;
use ref_store::Lens;
use rule_compile::Policy;
use setup_conf::setup_policy;
use std::alloc::{AllocError, Global};
use std::marker::Model;
use std::sync::Arc;

/// A conf that is in force, or was, with the rules that it comes to. The hub and its openings share it.
#[derive(Drop)]
pub struct ConfInForce {
    shared: Arc<Held>,
}

#[derive(Drop)]
struct Held {
    admin: UserName,
    // Where the conf was pushed; the setup's wasn't.
    pushed: Option<CommitAmong>,
    policy: Policy,
}

// A commit, and the objects among which it was found to be whole.
#[derive(Drop)]
struct CommitAmong {
    objects: Lens,
    commit: ObjectId,
}

impl Model for ConfInForce {
    ghost use Rattle.std.specs.Arc.{arc_value};
    ghost use Rattle.rule_compile.specs.Patterns.{AreTrue, Patterns};
    ghost use Rattle.hub_history.specs.Conf.{AreInForce};
    ghost use Rattle.hub_history.specs.State.{Conf};
    ghost use Rattle.hub_state.specs.Codes.{coded_conf};
    ghost use Rattle.hub_state.specs.Held.{conf_of};

    ghost Value = { Conf };

    ghost coded = { coded_conf };

    ghost invariant = { λ c. (ps : Patterns) → AreTrue ps → AreInForce ps (conf_of (arc_value c.shared)) (arc_value c.shared).policy };

    ghost view = { λ c. conf_of (arc_value c.shared) };
}

impl ConfInForce {
    /// The conf of a new hub.
    pub fn setup(alloc: Global, admin: &UserName) -> Result<ConfInForce, NoMemory>
        ensures { IfOk result (λ c. c ≡ record { admin = admin.now; pushed = None }) }
    {
        // called for its clause that the admin is a user's name
        let _name = admin.bytes();
        // called for its clause that the setup's conf comes to these rules
        setup_conf::hold_laws();
        let held = Held {
            admin: admin.clone()?,
            pushed: None,
            policy: setup_policy(alloc, admin)?,
        };
        Ok(ConfInForce {
            shared: Arc::new(alloc, held)?,
        })
    }

    /// The conf at a commit among these objects, behind this one.
    pub fn renewed(
        &self,
        alloc: Global,
        objects: Lens,
        commit: ObjectId,
        policy: Policy,
    ) -> Result<ConfInForce, NoMemory>
        requires { (ps : Patterns) → AreTrue ps → ComesTo ps objects commit (Ok policy) }
        ensures { IfOk result (λ c. c ≡ record { admin = self.now.admin; pushed = Some (record { objects = objects; commit = commit }) }) }
    {
        let held = Held {
            admin: self.shared.admin.clone()?,
            pushed: Some(CommitAmong { objects, commit }),
            policy,
        };
        Ok(ConfInForce {
            shared: Arc::new(alloc, held)?,
        })
    }

    /// Whose setup the hub began with.
    pub fn admin(&self) -> &UserName
        ensures { result.now ≡ self.now.admin }
    {
        &self.shared.admin
    }

    /// The rules.
    pub fn policy(&self) -> &Policy
        ensures { (ps : Patterns) → AreTrue ps → AreInForce ps self.now result.now }
    {
        &self.shared.policy
    }
}

impl Clone for ConfInForce {
    ghost is_clone = { λ conf copy. copy ≡ conf };

    fn clone(&self) -> Result<ConfInForce, AllocError> {
        let shared = Arc::try_clone(&self.shared)?;
        Ok(ConfInForce { shared })
    }
}
