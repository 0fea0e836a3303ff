//! Copies of outcomes and their numbers.

use access_check::{Base, Letter};
use base_types::Text;
use git_object::ObjectId;
use hub_history::{Outcome, Verdict, hold_laws};
use std::alloc::Global;
use std::test::Fail;

fn denied(alloc: Global) -> Result<Outcome, Fail> {
    Ok(Outcome::Denied {
        verdict: Verdict::Fallthru,
        letter: Letter {
            base: Base::Create,
            merge: false,
        },
        name: Text::of(alloc, b"refs/heads/topic")?,
    })
}

// The numbers of an outcome and of its copy.
fn numbers(outcome: &Outcome) -> Result<(u8, u8), Fail> {
    Ok((outcome.number(), outcome.clone()?.number()))
}

#[test]
fn a_copy_has_the_same_number(rt: HostRuntime) -> Result<(), Fail> {
    hold_laws();
    let denied = denied(rt.alloc())?;
    assert_eq!(rt; numbers(&denied)?, (8, 8));
    assert_eq!(rt; numbers(&Outcome::Full(4_294_967_296))?, (17, 17));
    assert_eq!(rt; numbers(&Outcome::Stale(ObjectId::zero()))?, (11, 11));
    assert!(rt; Outcome::Done.is_done() && !denied.is_done());
    Ok(())
}
