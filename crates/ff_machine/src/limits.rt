//! The limits of one copy of the browser. Those of the mass and of the texts that operators make
//! stand in `ff_operators`, that of calls inside one another in `ff_term`, and that of a node's
//! handlers in `ff_tree`.

/// Open windows.
pub const MOST_WINDOWS: usize = 64;

/// Pages ever made.
pub const MOST_PAGES: u32 = 65_536;

/// Nodes ever made.
pub const MOST_NODES: u32 = 524_288;

/// Nodes that stand above a node.
pub const MOST_TREE_DEPTH: u32 = 256;

/// Activations ever made.
pub const MOST_ACTS: u32 = 524_288;

/// Variables ever declared.
pub const MOST_VARS: u32 = 1_048_576;

/// Entries in the queues of all pages together.
pub const MOST_ENTRIES: u32 = 1_048_576;

/// Slots ever made for one page.
pub const MOST_SLOTS: u32 = 1_048_576;

/// Pending requests.
pub const MOST_ASKS: usize = 4_096;

/// Pending requests to one domain.
pub const MOST_ASKS_OF_DOMAIN: usize = 256;

/// Cookies.
pub const MOST_COOKIES: usize = 1_024;

/// Cookies of one domain.
pub const MOST_COOKIES_OF_DOMAIN: usize = 64;

/// Bytes of a cookie's key, which has at least one.
pub const MOST_KEY_BYTES: usize = 256;

/// Bytes of a cookie's value.
pub const MOST_VALUE_BYTES: usize = 4_096;
