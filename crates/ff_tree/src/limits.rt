/// The most handlers that a text box or a button may have.
pub const MOST_HANDLERS: usize = 16;
