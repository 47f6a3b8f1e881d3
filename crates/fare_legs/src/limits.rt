/// How many rules are told apart, of which the free one is one; a fare of a further one bars nothing, and is never
/// barred.
pub const MOST_RULES: usize = 16;

/// How many sets of barred rules are told apart.
pub const MOST_SETS: usize = 64;
