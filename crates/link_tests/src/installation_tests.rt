// The inputs of installations, the first of which has the conf. All numbers, texts and digests were reckoned
// apart from the code.
use git_object::ObjectId;
use installation::{Draws, Visit, first_input, next_visit, repo_name, visit_input};
use sha1::Sha1;
use std::alloc::Global;
use std::test::Fail;

// How many repositories, from which start, the number behind the conf's draws, and the digest of the first
// input.
static FIRST: [(u32, u32, u32, &str); 3] = [
    (1, 1, 11_249, "8f30ef7fa7d8811f23f8cbecd298e141b8e3311b"),
    (3, 2, 37_229, "85b331f743580bc14ca7e20282124e934826588b"),
    (5_000, 1, 26_719, "737fb41385deedab95749e07de32a7eb67a2e780"),
];

// User, repository, and whether the ref is `refs/heads/master`.
static VISITS: [(u32, u32, bool); 3] = [(5, 2, true), (2, 0, true), (7, 0, false)];

// Whether a text has this digest.
fn has_digest(text: &[u8], digest: &str) -> bool {
    ObjectId::from_hex(digest.as_bytes())
        == Some(ObjectId {
            bytes: Sha1::digest(text),
        })
}

fn is_first(alloc: Global, row: &(u32, u32, u32, &str)) -> Result<bool, Fail> {
    let (count, start, last, digest) = row;
    if *count > 5000 {
        return Ok(false);
    }
    let first = first_input(alloc, *count, *start)?;
    Ok(first.draws.last == *last && has_digest(&first.input, digest))
}

#[test]
fn pushes_a_conf(rt: HostRuntime) -> Result<(), Fail> {
    for row in &FIRST {
        assert!(rt; is_first(rt.alloc(), row)?, "{} repositories", row.0);
    }
    Ok(())
}

#[test]
fn draws_visits(rt: HostRuntime) {
    let mut draws = Draws { last: 37_229 };
    for (user, repo, on_master) in &VISITS {
        let visit = next_visit(3, &mut draws);
        assert_eq!(rt;
            (visit.user, visit.repo, visit.on_master),
            (*user, *repo, *on_master)
        );
    }
}

#[test]
fn pushes_a_commit(rt: HostRuntime) -> Result<(), Fail> {
    let visit = Visit {
        user: 5,
        repo: 2,
        on_master: true,
    };
    let input = visit_input(rt.alloc(), 0, &visit, ObjectId::zero())?;
    assert!(rt; has_digest(&input, "42d1fec00d2a925927c5c21d6708f37d8b976120"));
    assert_eq!(rt; repo_name(rt.alloc(), 4_999)?.bytes(), b"r4999".as_slice());
    Ok(())
}
