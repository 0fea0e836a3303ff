// The files of a conf.
use base_types::{ItemList, Text};

/// How many bytes the name of a file has at most. A file with a longer name isn't seen.
pub const MAX_FILE_NAME: usize = 255;

/// The name of a file below `conf/`, or a pattern for such names.
pub type FileName = Text;

/// A file of a conf: its name, and its bytes.
#[derive(Drop)]
pub struct ConfFile {
    pub name: FileName,
    pub text: Text,
}

/// Files in any order. Of two of one name the first counts.
pub type FileList = ItemList<ConfFile>;
