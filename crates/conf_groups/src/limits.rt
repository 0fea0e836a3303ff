// How much a conf may have. `conf_file` has how long the name of a file may be.

/// How many files a conf has at most.
pub const MAX_FILES: usize = 1000;

/// How many bytes all files of a conf have together at most.
pub const MAX_FILE_BYTES: usize = 67_108_864;

/// How many bytes the files that are spliced have together at most.
pub const MAX_SPLICED_BYTES: usize = 4_194_304;

/// How many lines are placed at most.
pub const MAX_LINES: usize = 65_536;
