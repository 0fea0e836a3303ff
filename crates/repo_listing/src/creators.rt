// Whether a rule is for whoever creates a repository.
ghost use Rattle.std.specs.Prelude.{◌≡◌};
ghost use Rattle.std.specs.List.{list_any};
ghost use Rattle.access_check.specs.Users.{asked_anywhere, covers_user, word_covers};

use conf_lex::UserName;
use rule_compile::{Members, UserWord};

const CREATOR: &[u8] = b"CREATOR";

/// Whether a rule with this user word is for the user where no repository is given: the user counts as the
/// creator, nobody holds a role, and only the two roles that every repository has are declared.
pub(crate) fn covers_creator(word: &UserWord, user: &UserName) -> bool
    ensures { result ≡ covers_user (asked_anywhere user.now) word.now }
{
    match word {
        UserWord::Name(name) => word_covers(name.bytes(), user),
        UserWord::Group(_, members) => some_member_covers(members, user),
        UserWord::All => true,
        UserWord::Creator => word_covers(CREATOR, user),
        UserWord::Role(role) => word_covers(role.bytes(), user),
    }
}

// Whether a word is for the user. One of the two roles never is, since no user has that name.
fn word_covers(word: &[u8], user: &UserName) -> bool
    ensures { result ≡ word_covers (asked_anywhere user.now) word.now }
{
    word == CREATOR || word == user.bytes()
}

// Whether a member of a group is for the user. The members are looked up, and not gone through.
fn some_member_covers(members: &Members, user: &UserName) -> bool
    ensures { result ≡ list_any (word_covers (asked_anywhere user.now)) members.now }
{
    let name = user.bytes();
    members.contains(name) || members.contains(CREATOR)
}
