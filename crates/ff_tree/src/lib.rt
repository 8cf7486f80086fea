//! Expressions, documents and operators: the trees that scripts and pages are written in.
//!
//! Floor: words. It knows not how they are written in a trace, and not who may see them.
#![tactic(auto)]

mod limits;
mod op;
mod same;
mod tree;
mod weigh;

pub use limits::MOST_HANDLERS;
pub use op::Op;
pub use same::{same_docs, same_names};
pub use tree::{Body, Doc, Docs, Expr, Exprs, Handler, Handlers, Lit, Names};
pub use weigh::{ITEM, string_weight, weight_doc, weight_docs, weight_expr};
