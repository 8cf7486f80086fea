use ff_name::Text;

/// The names of two levels, of which one is at or below the other.
#[derive(Debug, Drop)]
pub struct Pair {
    /// The level that is at or below.
    pub low: Text,
    /// The level that is at or above.
    pub high: Text,
}
