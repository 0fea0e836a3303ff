// How much a conf may come to.

/// How many rules a conf has at most.
pub const MAX_RULES: usize = 100_000;

/// How many distinct texts of patterns a conf has at most.
pub const MAX_PATTERNS: usize = 4096;

/// How many bytes the name of a role has at most that a conf declares.
pub const MAX_ROLE_NAME: usize = 64;
