// Who asks of which repository, and whom a rule is for.
ghost use Rattle.std.specs.Prelude.{◌≡◌, ◌&&◌, codes, false, not, true, List, ℕ};
ghost use Rattle.std.specs.Bool.{OnFalse, OnTrue};
ghost use Rattle.std.specs.List.{list_any};
ghost use Rattle.conf_groups.specs.Groups.{holds};
ghost use Rattle.rule_compile.specs.Patterns.{AreTrue, Patterns};
ghost use Rattle.rule_compile.specs.Roles.{is_mentioned};
ghost use Rattle.access_check.specs.Questions.{asked_by, role_covers};
ghost use Rattle.access_check.specs.Users.{asked, asked_unborn, covers_user, holds_role, is_creator, word_covers};

use conf_lex::{RepoName, UserName};
use rule_compile::{Members, Policy, UserWord};
use wild_perms::Wild;

const READERS: &[u8] = b"READERS";

const WRITERS: &[u8] = b"WRITERS";

const CREATOR: &[u8] = b"CREATOR";

/// Who asks of which repository, with what is known of it.
#[derive(Clone, Copy)]
pub(crate) struct Question<'a> {
    /// The rules in force. Their options declare roles.
    pub(crate) policy: &'a Policy,
    pub(crate) repo: &'a RepoName,
    pub(crate) user: &'a UserName,
    pub(crate) creator: Option<&'a UserName>,
    /// Who holds which role. Before the repository is there nobody does.
    pub(crate) wild: Option<&'a Wild>,
}

impl<'a> Question<'a> {
    /// Of a repository that is there.
    pub(crate) fn of(
        policy: &'a Policy,
        wild: &'a Wild,
        repo: &'a RepoName,
        user: &'a UserName,
    ) -> Question<'a>
        ensures { (ps : Patterns) → asked_by ps result ≡ asked ps policy.now wild.now repo.now user.now }
    {
        Question {
            policy,
            repo,
            user,
            creator: wild.creator(),
            wild: Some(wild),
        }
    }

    /// Of a repository that isn't there: the asker counts as its creator.
    pub(crate) fn unborn(
        policy: &'a Policy,
        repo: &'a RepoName,
        asker: &'a UserName,
    ) -> Question<'a>
        ensures { (ps : Patterns) → asked_by ps result ≡ asked_unborn ps policy.now repo.now asker.now }
    {
        Question {
            policy,
            repo,
            user: asker,
            creator: Some(asker),
            wild: None,
        }
    }

    /// Whether a rule with this user word is for the user.
    pub(crate) fn covers_user(&self, word: &UserWord) -> bool
        ensures { (ps : Patterns) → AreTrue ps → result ≡ covers_user (asked_by ps self.now) word.now }
    {
        match word {
            UserWord::Name(name) => self.word_covers(name.bytes()),
            UserWord::Group(_, members) => self.some_member_covers(members),
            UserWord::All => true,
            UserWord::Creator => self.is_creator(),
            UserWord::Role(role) => self.word_covers(role.bytes()),
        }
    }

    // Whether a word is for the user.
    fn word_covers(&self, word: &[u8]) -> bool
        ensures { (ps : Patterns) → AreTrue ps → result ≡ word_covers (asked_by ps self.now) word.now }
    {
        if word == CREATOR {
            return self.is_creator();
        }
        if self.declares(word) {
            return self.holds_role(word);
        }
        word == self.user.bytes()
    }

    // Whether a member of a group is for the user. The members are looked up, and not gone through.
    fn some_member_covers(&self, members: &Members) -> bool
        ensures { (ps : Patterns) → AreTrue ps → result ≡ list_any (word_covers (asked_by ps self.now)) members.now }
    {
        // called for its clause that the user's name is one
        let _name = self.user.bytes();
        if self.is_member(members) {
            return true;
        }
        if self.is_member_as_creator(members) {
            return true;
        }
        if self.role_covers(members, READERS) {
            return true;
        }
        if self.role_covers(members, WRITERS) {
            return true;
        }
        self.some_role_covers(members)
    }

    // Whether the user's name is a member of a group, and isn't declared as a role.
    fn is_member(&self, members: &Members) -> bool
        ensures { (ps : Patterns) → AreTrue ps → result ≡ (holds members.now self.now.user.now && not ((asked_by ps self.now).declares self.now.user.now)) }
    {
        let name = self.user.bytes();
        members.contains(name) && !self.declares(name)
    }

    // Whether the user is the creator, and a group has the word for the creator.
    fn is_member_as_creator(&self, members: &Members) -> bool
        ensures { (ps : Patterns) → result ≡ (is_creator (asked_by ps self.now) && holds members.now (codes "CREATOR")) }
    {
        self.is_creator() && members.contains(CREATOR)
    }

    // Whether a role that some option line mentions, and that the user holds, is declared and a member of a
    // group.
    fn some_role_covers(&self, members: &Members) -> bool
        ensures some { OnTrue result ((ps : Patterns) → AreTrue ps → (word : List ℕ) × (role_covers (asked_by ps self.now) members.now word ≡ true)) }
        ensures none { OnFalse result ((ps : Patterns) → AreTrue ps → (word : List ℕ) → is_mentioned self.now.policy.now.options word ≡ true → role_covers (asked_by ps self.now) members.now word ≡ false) }
    {
        for word in self.policy.mentioned_roles() {
            if self.role_covers(members, word.bytes()) {
                return true;
            }
        }
        false
    }

    // Whether a word is a member of a group, is declared as a role, and the user holds it. Whether it is
    // declared is asked last.
    fn role_covers(&self, members: &Members, word: &[u8]) -> bool
        ensures { (ps : Patterns) → AreTrue ps → result ≡ role_covers (asked_by ps self.now) members.now word.now }
    {
        if !self.holds_role(word) {
            return false;
        }
        if !members.contains(word) {
            return false;
        }
        self.declares(word)
    }

    // Whether a word is declared as a role for the repository.
    fn declares(&self, word: &[u8]) -> bool
        ensures { (ps : Patterns) → AreTrue ps → result ≡ (asked_by ps self.now).declares word.now }
    {
        self.policy.declares(word, self.repo, self.creator)
    }

    fn is_creator(&self) -> bool
        ensures { (ps : Patterns) → result ≡ is_creator (asked_by ps self.now) }
    {
        match self.creator {
            Some(creator) => creator.bytes() == self.user.bytes(),
            None => false,
        }
    }

    fn holds_role(&self, role: &[u8]) -> bool
        ensures { (ps : Patterns) → result ≡ holds_role (asked_by ps self.now) role.now }
    {
        match self.wild {
            Some(wild) => wild.holds(role, self.user),
            None => false,
        }
    }
}
