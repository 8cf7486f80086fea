//! The lowest values of the browser: texts, names, domains, addresses and levels.
//!
//! Floor: words. It knows not how they are written in a trace, and not who may see them.
//!
//! These values never change. A call that makes one may be refused for want of memory, and then
//! there is none; whatever else refuses it, its own words say.
#![tactic(auto)]

mod domains;
mod law;
mod levels;
mod limits;
mod names;
mod short;
mod texts;
mod urls;
mod worded;

pub use domains::{Domain, MOST_DOMAIN_BYTES, MOST_LABEL_BYTES, is_domain};
pub use law::{an_address_is_read_in_one_way, what_is_spelled_passes_its_test};
pub use levels::Level;
pub use limits::MOST_DEPTH;
pub use names::{MOST_NAME_BYTES, Name, begins_name, is_name, stands_in_name};
pub use texts::{NoMemory, Text};
pub use urls::{MOST_REQUEST_BYTES, Url, UrlFault};
pub use worded::{Worded, by_word};
