//! The written machine: what one copy of the browser is, as definitions, and the small types in
//! which they and the program speak alike.
//!
//! Floor: one browser. It knows of no levels.
//!
//! This crate has no functions but copies. Its definitions (`specs/`) are what the contracts of all
//! stores, of the reduction and of the browser cite, and no crate above writes a second one.
//! `docs/MACHINE.md` says the same in words.
//!
//! # Definitions
//!
//! - `Faults`: what is refused, and why. The limits are the constants of this crate, which the
//!   definitions cite by name.
//! - `Shapes`, `Nodes`, `Documents`: what is read off a node; nodes by number, the walk of a tree,
//!   joining and changing trees; how documents become nodes.
//! - `Windows`: windows, pages with their queues of scripts, activations with their variables, each
//!   by its number.
//! - `Net`: cookies by domain and key, and the pending requests of each domain.
//! - `Stores`: all of these together, the mass and the pages that were touched; sending, starting
//!   scripts, loading, opening and closing windows, typing, joining, taking a reply, settling.
//! - `Operators`: what each operator of the script language does with its operands, or why it
//!   fails. `Reduction`: the one reduction of a runtime expression (`Red`), by its redex.
//! - `State`, `Inputs`, `Turns`: the state of a browser, what it makes of an input (`begin`), and
//!   one turn (`turn`). `Machine` has them as the reactor whose runs `ff_confinement` speaks of.
//! - `Alone`, `References`, `Valid`: which stores are valid. A store keeps some of it by itself
//!   (`Alone`); what refers to a window, page, node or activation refers to one that was made
//!   (`References`); the rest holds across stores, of tasks and of states.
//! - `Answers`: the words in which contracts say what a call leaves. `Codes`: codes of the values
//!   that contracts see.
//!
//! What fails is written beside what changes: a fault is a definition of its own, in the order of
//! the faults, and the change is a total function. So one change serves scripts, which learn the
//! fault, and inputs, which pass it over.
//!
//! # Tried
//!
//! `Traces` has small inputs, and what one copy of the browser puts for each of them: a page load,
//! whose reply is then given twice; a click whose script sends what was typed, and the same click
//! where nothing was typed; a fault in a script; a slot that waits for its script; a queue that is
//! left for want of fuel. The laws of `traces` say that the definitions give these outputs,
//! whatever fuel an input brings, if it is enough.
//!
//! # Laws
//!
//! Law functions say that a new browser is valid, that a reduction which fails changes nothing,
//! that an input is handled in at most one turn more than it brings fuel, and that weights may be
//! capped at the greatest number of 64 bits. Of validity they say that an operator gives a valid
//! value, that a call declares its parameters, each with its own argument, and that trees which are
//! made or joined leave valid nodes. That what the definitions make of valid stores is valid is no
//! law of this crate.
#![tactic(auto)]

mod kinds;
mod law;
mod limits;
mod records;
mod reduced;
mod traces;
mod validity;

pub use kinds::Kind;
pub use law::{
    a_capped_weight_is_weighed_alike, a_fault_changes_nothing, a_new_browser_is_valid,
    an_input_ends_within_its_fuel,
};
pub use limits::{
    MOST_ACTS, MOST_ASKS, MOST_ASKS_OF_DOMAIN, MOST_COOKIES, MOST_COOKIES_OF_DOMAIN, MOST_ENTRIES,
    MOST_KEY_BYTES, MOST_NODES, MOST_PAGES, MOST_SLOTS, MOST_TREE_DEPTH, MOST_VALUE_BYTES,
    MOST_VARS, MOST_WINDOWS,
};
pub use records::{Dst, Entry, Pending, Shape};
pub use reduced::Reduced;
pub use traces::{
    a_fault_ends_its_script_alone, a_page_is_loaded_once, a_queue_waits_for_fuel,
    a_slot_holds_back_the_next_script, the_plain_machine_leaks,
};
pub use validity::{
    a_call_declares_its_parameters, a_joined_tree_leaves_valid_nodes,
    a_made_tree_leaves_valid_nodes, an_operator_gives_a_valid_value,
};
