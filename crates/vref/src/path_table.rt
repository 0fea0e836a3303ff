// The paths at which two trees differ, in a table in which they share their fronts.
ghost use Rattle.std.specs.Prelude.{◌≡◌, ◌<◌, ◌++◌, length, reverse, IfOk};
ghost use Rattle.vref.specs.PathTable.{AreLinked, path_at, paths_of};

use base_types::{NoMemory, Text};
use git_object::ObjectId;
use std::alloc::Global;

/// A path at which two trees differ. It has the last name alone; what comes before that is the path of its
/// directory.
#[derive(Clone, Copy)]
pub struct Row<'a> {
    /// The place of the directory's row; the root has none.
    pub parent: Option<usize>,
    pub name: &'a [u8],
    /// The tree below it on either side, where it is a directory there.
    pub old: Option<ObjectId>,
    pub new: Option<ObjectId>,
    /// Whether it is a file on some side.
    pub listed: bool,
    /// How many bytes the path has.
    pub length: usize,
}

/// Puts the path of a row together. It costs the length of the path.
pub fn path_of(alloc: Global, rows: &[Row<'_>], place: usize) -> Result<Text, NoMemory>
    requires linked { AreLinked rows.now }
    requires within { place < length rows.now }
    ensures { IfOk result (λ path. path ≡ path_at (paths_of rows.now) place) }
{
    let mut bytes = Vec::with_capacity(alloc, rows[place].length)?;
    push_reversed(&mut bytes, rows[place].name)?;
    let mut at = place;
    while let Some(parent) = rows[at].parent {
        bytes.push(b'/')?;
        push_reversed(&mut bytes, rows[parent].name)?;
        at = parent;
    }
    bytes.reverse();
    Ok(Text::from(bytes))
}

// Adds bytes, the last first.
fn push_reversed(bytes: &mut Vec<u8>, more: &[u8]) -> Result<(), NoMemory>
    ensures { IfOk result (λ _. bytes.new.items ≡ bytes.old.items ++ reverse more.now) }
{
    for byte in more.iter().rev() {
        bytes.push(*byte)?;
    }
    Ok(())
}
