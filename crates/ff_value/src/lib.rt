//! The values that the browser's stores, scripts, inputs and outputs are made of.
//!
//! Floor: words. It knows not how they are written in a trace, and not who may see them.
//!
//! The texts, names and addresses of `ff_name` and the expressions and documents of `ff_tree` are
//! exported again, so that a user of values names this crate alone.
#![tactic(auto)]

mod fault;
mod ids;
mod input;
mod kind;
mod offers;
mod output;
mod reply;
mod value;
mod weigh;

pub use fault::Fault;
pub use ff_name::{Domain, Level, Name, NoMemory, Text, Url, UrlFault, Worded, by_word};
pub use ff_shared::{Shared, SharedList};
pub use ff_tree::{
    Body, Doc, Docs, Expr, Exprs, Handler, Handlers, Lit, MOST_HANDLERS, Names, Op, weight_doc,
};
pub use ids::{ActId, Ids, NodeId, PageId, WinId};
pub use input::{Act, Input};
pub use kind::Kind;
pub use offers::{Offer, Offers, same_offer};
pub use output::{Out, Pair, Pairs, Shown, ShownPart, ShownPart as Seen};
pub use reply::{CookieOp, Cookies, Resp};
pub use value::{Code, Codes, Val};
pub use weigh::weight_resp;

/// A list of values that is shared, as the operands of an operator.
pub type Vals = SharedList<Val>;
