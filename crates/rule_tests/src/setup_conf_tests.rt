//! The conf of a new hub and its rules, for short names of admins and for one of the greatest length.

use setup_conf::{UserName, hold_laws, setup_files, setup_policy};
use std::alloc::Global;
use std::test::Fail;

static ADMINS: [&str; 6] = [
    "admin",
    "a",
    "9",
    "all",
    "A.b-c_d@e+f",
    "a234567890123456789012345678901234567890123456789012345678901234",
];

// How many files the conf of a new hub has, and how many rules and plain repositories it comes to.
fn count(alloc: Global, admin: &str) -> Result<(usize, usize, usize), Fail> {
    let Ok(Some(admin)) = UserName::parse(alloc, admin.as_bytes()) else {
        return Err(Fail::from("a user's name"));
    };
    let files = setup_files(alloc, &admin)?.len();
    match setup_policy(alloc, &admin) {
        Ok(policy) => Ok((files, policy.rules().len(), policy.plain_repos().len())),
        Err(_) => Err(Fail::from("out of memory")),
    }
}

#[test]
fn a_new_hub_has_two_rules(rt: HostRuntime) -> Result<(), Fail> {
    hold_laws();
    for admin in &ADMINS {
        if count(rt.alloc(), admin)? != (1, 2, 2) {
            return Err(Fail::from(*admin));
        }
    }
    Ok(())
}
