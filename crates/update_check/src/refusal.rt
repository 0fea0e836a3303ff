// Why a change isn't let be made.
ghost use Rattle.std.specs.Prelude.{◌≡◌};

use access_check::{Letter, Verdict};
use base_types::Text;
use std::alloc::AllocError;

/// Why the rules don't let a change of a ref be made.
#[derive(Drop)]
pub enum Refusal {
    /// A rule denies the ref or a virtual ref, or no rule allows the ref. The name is what was asked: the
    /// ref's, or the virtual ref's.
    Denied {
        verdict: Verdict,
        letter: Letter,
        name: Text,
    },
    /// A rule asks for changed paths, and the trees differ at more than 200,000 paths, or at one of more than
    /// 4,096 bytes.
    ManyPaths,
}

impl Clone for Refusal {
    ghost is_clone = { λ refusal copy. copy ≡ refusal };

    fn clone(&self) -> Result<Refusal, AllocError> {
        Ok(match self {
            Refusal::Denied {
                verdict,
                letter,
                name,
            } => Refusal::Denied {
                verdict: *verdict,
                letter: *letter,
                name: name.clone()?,
            },
            Refusal::ManyPaths => Refusal::ManyPaths,
        })
    }
}
