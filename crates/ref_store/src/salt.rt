// How the names in an index are hashed.
use git_object::{Object, ObjectId};
use sha1::Sha1;
use std::hash::{BuildHasher, FoldHasher, Hasher};

/// Where the hash of each name in an index begins. The salt of an index is made by SHA-1 of the names that
/// are put in, so whoever chooses names knows the salt only once they are chosen: names that were found to
/// fall together under one salt lie apart under the one that they bring about.
#[derive(Clone, Copy)]
pub struct Salt {
    digest: [u8; 20],
    initial: FoldHasher,
}

impl Salt {
    /// The salt of an index of these objects' names.
    pub fn of(objects: &[Object]) -> Salt {
        let mut hasher = Sha1::new();
        for object in objects {
            hasher.update(&object.name().bytes);
        }
        salt_from(hasher.finalize())
    }

    /// The salt of an index of these names.
    pub fn of_ids(ids: &[ObjectId]) -> Salt {
        let mut hasher = Sha1::new();
        for id in ids {
            hasher.update(&id.bytes);
        }
        salt_from(hasher.finalize())
    }

    /// The salt of an index that holds what two indices hold.
    pub fn joined(self, with: Salt) -> Salt {
        let mut hasher = Sha1::new();
        hasher.update(&self.digest);
        hasher.update(&with.digest);
        salt_from(hasher.finalize())
    }
}

impl BuildHasher for Salt {
    type Hasher = FoldHasher;

    ghost build_hasher = { λ salt. salt.initial };

    fn build_hasher(&self) -> FoldHasher {
        self.initial
    }
}

fn salt_from(digest: [u8; 20]) -> Salt {
    let mut initial = FoldHasher::default();
    initial.write(&digest);
    Salt { digest, initial }
}
