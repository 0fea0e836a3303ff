// How large patterns and their machines are.

/// How many positions a pattern may have.
pub const MAX_POSITIONS: u32 = 127;

/// Where a set of positions has the exit: behind all positions.
pub const EXIT: u8 = MAX_POSITIONS as u8;

/// How many positions a hole counts, so that any name fits.
pub const NAME_POSITIONS: u32 = 64;

/// The most bytes of a name that a pattern is asked with.
pub const MAX_NAME: usize = NAME_POSITIONS as usize;

/// The largest number in a count such as `{2,3}`.
pub const MAX_REPEAT: u8 = 127;

/// Where counting positions ends: this count stands for larger ones as well.
pub const MAX_COUNT: u32 = 65_535;

/// The end mark among the letters, behind the bytes.
pub const END_MARK: u16 = 256;

/// How many letters there are: the bytes and the end mark.
pub const LETTERS: u16 = 257;
