// Permissions.
ghost use Rattle.std.specs.Prelude.{◌≡◌};
ghost use Rattle.conf_lex.specs.Permissions.{after_letter, c_before_d, has_letter, perm_of, perm_text, writes_by};

/// What a rule allows, or that it denies.
#[derive(Clone, Copy, Debug, PartialEq, Eq)]
pub struct Perm {
    /// `-`: it denies.
    pub deny: bool,
    /// `C` alone: a repository may be created.
    pub lone_create: bool,
    /// `R` and `RW`: reading.
    pub read: bool,
    /// `RW`: writing.
    pub write: bool,
    /// `+` after `RW`: rewinding and deleting.
    pub rewind: bool,
    /// `C` after `RW`: creating a ref.
    pub create: bool,
    /// `D` after `RW`: deleting a ref.
    pub delete: bool,
    /// `M` after `RW`: bringing a merge.
    pub merge: bool,
}

impl Perm {
    /// The permission that the word is: `-`, `R`, `C`, or `RW` and any of `+`, `C`, `D` and `M` in this
    /// order, or with `D` before `C`.
    pub fn parse(word: &[u8]) -> Option<Perm>
        ensures { result ≡ perm_of word.now }
    {
        if word == b"-".as_slice() {
            return Some(Perm {
                deny: true,
                ..NOTHING
            });
        }
        if word == b"R".as_slice() {
            return Some(Perm {
                read: true,
                ..NOTHING
            });
        }
        if word == b"C".as_slice() {
            return Some(Perm {
                lone_create: true,
                ..NOTHING
            });
        }
        if !word.starts_with(b"RW") {
            return None;
        }
        writes_by(word.split_at(2).1)
    }

    /// The text of the permission, which reads back. It has `C` before `D`, and takes no memory.
    pub fn text(&self) -> &'static [u8]
        ensures { result.now ≡ perm_text self.now }
    {
        if self.deny {
            return b"-".as_slice();
        }
        if self.lone_create {
            return b"C".as_slice();
        }
        if !self.write {
            return b"R".as_slice();
        }
        match (self.rewind, self.create, self.delete, self.merge) {
            (false, false, false, false) => b"RW".as_slice(),
            (false, false, false, true) => b"RWM".as_slice(),
            (false, false, true, false) => b"RWD".as_slice(),
            (false, false, true, true) => b"RWDM".as_slice(),
            (false, true, false, false) => b"RWC".as_slice(),
            (false, true, false, true) => b"RWCM".as_slice(),
            (false, true, true, false) => b"RWCD".as_slice(),
            (false, true, true, true) => b"RWCDM".as_slice(),
            (true, false, false, false) => b"RW+".as_slice(),
            (true, false, false, true) => b"RW+M".as_slice(),
            (true, false, true, false) => b"RW+D".as_slice(),
            (true, false, true, true) => b"RW+DM".as_slice(),
            (true, true, false, false) => b"RW+C".as_slice(),
            (true, true, false, true) => b"RW+CM".as_slice(),
            (true, true, true, false) => b"RW+CD".as_slice(),
            (true, true, true, true) => b"RW+CDM".as_slice(),
        }
    }
}

const NOTHING: Perm = Perm {
    deny: false,
    lone_create: false,
    read: false,
    write: false,
    rewind: false,
    create: false,
    delete: false,
    merge: false,
};

// `RW` with these letters.
fn writes_by(letters: &[u8]) -> Option<Perm>
    ensures { result ≡ writes_by letters.now }
{
    let (rewind, letters) = letter(b'+', letters);
    let (create, delete, letters) = create_and_delete(letters);
    let (merge, letters) = letter(b'M', letters);
    if !letters.is_empty() {
        return None;
    }
    Some(Perm {
        read: true,
        write: true,
        rewind,
        create,
        delete,
        merge,
        ..NOTHING
    })
}

// Whether `C` and `D` are at the front, in either order, and what follows them.
fn create_and_delete(letters: &[u8]) -> (bool, bool, &[u8])
    ensures create { result.0 ≡ has_letter 67 (c_before_d letters.now) }
    ensures delete { result.1 ≡ has_letter 68 (after_letter 67 (c_before_d letters.now)) }
    ensures after { result.2.now ≡ after_letter 68 (after_letter 67 (c_before_d letters.now)) }
{
    if letters.starts_with(b"DC") {
        return (true, true, letters.split_at(2).1);
    }
    let (create, letters) = letter(b'C', letters);
    let (delete, letters) = letter(b'D', letters);
    (create, delete, letters)
}

// Whether the letter is at the front, and what follows it.
fn letter(letter: u8, letters: &[u8]) -> (bool, &[u8])
    ensures there { result.0 ≡ has_letter letter letters.now }
    ensures after { result.1.now ≡ after_letter letter letters.now }
{
    match letters.split_first() {
        Some((first, rest)) if *first == letter => (true, rest),
        _ => (false, letters),
    }
}
