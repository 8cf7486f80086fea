/// The most lists of the notation that may stand in one another.
pub const MOST_DEPTH: usize = 64;
