// The letter that a change needs, and what a permission grants.
ghost use Rattle.std.specs.Prelude.{◌≡◌};
ghost use Rattle.access_check.specs.Letters.{base_of, grants, has_base, letter_of, letter_text};
ghost use Rattle.access_check.specs.Questions.{with_perm};

use ancestry::{Change, Facts};
use conf_lex::Perm;

/// The letter of a change, but for `M`.
#[derive(Clone, Copy, Debug, PartialEq, Eq)]
pub enum Base {
    /// `W`
    Write,
    /// `+`: rewinding and deleting.
    Rewind,
    /// `C`: creating a ref.
    Create,
    /// `D`: deleting a ref.
    Delete,
}

/// What a change of a ref needs of a permission.
#[derive(Clone, Copy, Debug, PartialEq, Eq)]
pub struct Letter {
    pub base: Base,
    /// `M`: bringing a merge.
    pub merge: bool,
}

/// Which letters after `RW` are in force for a repository.
#[derive(Clone, Copy, Debug, PartialEq, Eq)]
pub struct Flags {
    pub create: bool,
    pub delete: bool,
    pub merge: bool,
}

/// The letter that a change of these facts needs.
pub fn letter_of(flags: Flags, facts: &Facts) -> Letter
    ensures { result ≡ letter_of flags facts.now }
{
    Letter {
        base: base_of(flags, facts),
        merge: facts.change == Change::Update && flags.merge && facts.merge,
    }
}

fn base_of(flags: Flags, facts: &Facts) -> Base
    ensures { result ≡ base_of flags facts.now.change facts.now }
{
    match facts.change {
        Change::Create if flags.create => Base::Create,
        Change::Create => Base::Write,
        Change::Delete if flags.delete => Base::Delete,
        Change::Delete => Base::Rewind,
        Change::Update if !facts.tag && facts.commits && facts.forward => Base::Write,
        Change::Update => Base::Rewind,
    }
}

/// Whether a permission grants a letter.
pub(crate) fn grants(perm: Perm, letter: Letter) -> bool
    ensures { result ≡ grants perm letter }
{
    !perm.deny && has_base(perm, letter.base) && (!letter.merge || perm.merge)
}

fn has_base(perm: Perm, base: Base) -> bool
    ensures { result ≡ has_base perm base }
{
    match base {
        Base::Write => perm.write,
        Base::Rewind => perm.rewind,
        Base::Create => perm.create,
        Base::Delete => perm.delete,
    }
}

impl Flags {
    /// With the letters of one more permission.
    pub(crate) fn with(self, perm: Perm) -> Flags
        ensures { result ≡ with_perm self perm }
    {
        Flags {
            create: self.create || perm.create,
            delete: self.delete || perm.delete,
            merge: self.merge || perm.merge,
        }
    }
}

impl Letter {
    /// The text of the letter, as `W`, `+` or `CM`. It takes no memory.
    pub fn text(&self) -> &'static [u8]
        ensures { result.now ≡ letter_text self.now }
    {
        match (self.base, self.merge) {
            (Base::Write, false) => b"W".as_slice(),
            (Base::Write, true) => b"WM".as_slice(),
            (Base::Rewind, false) => b"+".as_slice(),
            (Base::Rewind, true) => b"+M".as_slice(),
            (Base::Create, false) => b"C".as_slice(),
            (Base::Create, true) => b"CM".as_slice(),
            (Base::Delete, false) => b"D".as_slice(),
            (Base::Delete, true) => b"DM".as_slice(),
        }
    }
}
