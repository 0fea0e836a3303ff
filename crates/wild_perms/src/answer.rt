// What a change or a listing of roles is answered.
ghost use Rattle.std.specs.Prelude.{◌≡◌};
ghost use Rattle.wild_perms.specs.Answers.{answer_number};

use crate::role::RoleList;

/// What a change or a listing of roles is answered. Only `Changed` changes the roles.
#[derive(Drop)]
pub enum PermsAnswer {
    Changed,
    /// The user holds the role already, or doesn't hold the one that is to be taken.
    AlreadySo,
    /// Nobody created the repository: it is in the conf by its name.
    NotWild,
    /// The asker isn't the creator.
    NotCreator,
    /// The word isn't declared as a role for the repository.
    NoSuchRole,
    Listed(RoleList),
    NoMemory,
}

impl PermsAnswer {
    /// The number by which the answer is known, whatever it holds.
    pub fn number(&self) -> u8
        ensures { result ≡ answer_number self.now }
    {
        match self {
            PermsAnswer::Changed => 1,
            PermsAnswer::AlreadySo => 2,
            PermsAnswer::NotWild => 3,
            PermsAnswer::NotCreator => 4,
            PermsAnswer::NoSuchRole => 5,
            PermsAnswer::Listed(_) => 6,
            PermsAnswer::NoMemory => 7,
        }
    }
}
