//! The versions of the form of a policy.

/// Which form a policy is written in.
#[derive(Clone, Copy, Debug, PartialEq, Eq)]
pub(crate) enum Version {
    /// The kinds of what a user does have one level each.
    One,
    /// Replies are a kind too, and each kind has a level for its presence and one for its content.
    Two,
}
