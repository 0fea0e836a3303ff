// How the names in an index are hashed.
use conf_lex::RepoName;
use sha1::Sha1;
use std::hash::{BuildHasher, FoldHasher, Hasher};

/// Where the hash of each name in an index begins. It is made by SHA-1 of the names of a conf, so whoever
/// chooses names knows it only once all are chosen: names that were found to fall together under one salt lie
/// apart under the one that they bring about.
#[derive(Clone, Copy)]
pub(crate) struct Salt {
    initial: FoldHasher,
}

impl Salt {
    /// The salt of an index of these names. It costs their bytes.
    pub(crate) fn of(names: &[RepoName]) -> Salt {
        let mut hasher = Sha1::new();
        for name in names {
            hasher.update(name.bytes());
            hasher.update(b"\n");
        }
        let mut initial = FoldHasher::default();
        initial.write(&hasher.finalize());
        Salt { initial }
    }
}

impl BuildHasher for Salt {
    type Hasher = FoldHasher;

    ghost build_hasher = { λ salt. salt.initial };

    fn build_hasher(&self) -> FoldHasher {
        self.initial
    }
}
