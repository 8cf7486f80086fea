/// The most bytes of a text that an operator makes.
pub const MOST_MADE_BYTES: usize = 65_536;

/// The greatest mass of one copy of the browser, in bytes.
pub const MOST_MASS: u64 = 67_108_864;
