// The kinds of objects.
ghost use Rattle.std.specs.Prelude.{◌≡◌};
ghost use Rattle.git_object.specs.Kind.{kind_of_word, kind_word};

/// What an object is.
#[derive(Clone, Copy, Debug, PartialEq, Eq, Hash)]
pub enum Kind {
    Commit = 1,
    Tree = 2,
    Blob = 3,
    Tag = 4,
}

impl Kind {
    /// The word that stands for the kind in names and in tags.
    pub fn word(self) -> &'static [u8]
        ensures { result.now ≡ kind_word self }
    {
        match self {
            Kind::Commit => b"commit",
            Kind::Tree => b"tree",
            Kind::Blob => b"blob",
            Kind::Tag => b"tag",
        }
    }

    /// The kind whose word it is.
    #[tactic(auto, unfolding(crate::specs::Kind::kind_of_word))]
    pub fn from_word(word: &[u8]) -> Option<Kind>
        ensures { result ≡ kind_of_word word.now }
    {
        if word == b"commit".as_slice() {
            return Some(Kind::Commit);
        }
        if word == b"tree".as_slice() {
            return Some(Kind::Tree);
        }
        if word == b"blob".as_slice() {
            return Some(Kind::Blob);
        }
        if word == b"tag".as_slice() {
            return Some(Kind::Tag);
        }
        None
    }
}
