//! The forms of documents, expressions and responses: what reading and printing both know.
//!
//! Floor: notation. It knows not what a machine makes of what is read.
#![tactic(auto)]

mod fault;
mod heads;

pub use fault::SyntaxFault;
pub use ff_name::NoMemory;
pub use heads::{CookieHead, DocHead, ExprHead, HandlerHead, RespHead};
