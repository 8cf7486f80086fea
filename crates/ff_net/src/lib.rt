//! Cookies and pending requests.
//!
//! Floor: one browser. It knows of no levels.
//!
//! A [`Jar`] is seen as the finite map from domains and keys to values, and [`Requests`] as the one
//! from domains to their pending requests, the oldest first. Both are held as rows in no order,
//! with no two of one key, in lists that forks share until one of them writes. A search goes over
//! the rows and takes no memory: over at most 1,024 cookies, or one row for each domain that has
//! requests, whose own list is in order. Two finite maps that answer alike are equal, so no clause
//! sees the order of rows. A row is taken out by putting the last one into its place, which moves
//! no other; what was last stays behind the end of the list until another is written there, and
//! keeps its texts until then.
//!
//! Records come in order, since a map is filled with the rows from the last to the first: to insert
//! into it is to put into the written map, so the entries of the one are those of the other.
//!
//! Any change and any copy may be refused for want of memory. The store that was to change is valid
//! then, and what it holds is said at the call.
#![tactic(auto)]

mod ask;
mod ask_records;
mod asked;
mod cookie;
mod cookie_records;
mod jar;
mod pairs;
mod referring;
mod requests;
mod shrinking_list;

pub use ff_machine::{Dst, Pending};
pub use ff_name::NoMemory;
pub use ff_operators::Fail as JarFail;
pub use ff_records::{AskRec, AskRecs, CookieRec, CookieRecs};
pub use jar::Jar;
pub use requests::Requests;
