//! How large a policy and its fuel may be.

/// The most bytes that a policy may have.
pub const MOST_POLICY_BYTES: usize = 65_536;

/// The most fuel that an input may have.
pub const MOST_FUEL: u64 = 1_000_000;

/// The fuel of an input where none is given.
pub const USUAL_FUEL: u64 = 10_000;
