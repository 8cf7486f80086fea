use thiserror::Error;

/// Why bytes are not the saved text of a state under a policy.
#[derive(Clone, Copy, Debug, PartialEq, Eq, Error)]
pub enum SavedFault {
    /// They begin as a saved text does, under a policy that is printed otherwise.
    #[error("other policy")]
    OtherPolicy,
    /// They are no saved text.
    #[error("not valid")]
    NotSaved,
}
