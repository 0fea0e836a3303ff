// Roles, and an entry of one for a user.
ghost use Rattle.std.specs.Prelude.{◌≡◌};
ghost use Rattle.wild_perms.specs.Roles.{entry_cmp};

use base_types::{ItemList, Text};
use conf_lex::UserName;
use std::alloc::AllocError;
use std::cmp::Ordering;

/// A user holds a role.
#[derive(Drop)]
pub struct RoleEntry {
    pub role: Text,
    pub user: UserName,
}

/// Entries, by role and then by user in byte order.
pub type RoleList = ItemList<RoleEntry>;

impl Clone for RoleEntry {
    ghost is_clone = { λ entry copy. copy ≡ entry };

    fn clone(&self) -> Result<RoleEntry, AllocError> {
        Ok(RoleEntry {
            role: self.role.clone()?,
            user: self.user.clone()?,
        })
    }
}

impl RoleEntry {
    // Where the entry stands beside the one of this role and user.
    pub(crate) fn order(&self, role: &[u8], user: &UserName) -> Ordering
        ensures { result ≡ entry_cmp self.now (record { role = role.now; user = user.now }) }
    {
        self.role
            .bytes()
            .cmp(role)
            .then(self.user.bytes().cmp(user.bytes()))
    }
}
