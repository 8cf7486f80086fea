//! Laws of the written machine: what its definitions keep, proved once for all crates that cite
//! them.
//!
//! Floor: one browser. It knows of no levels.
//!
//! The crate has no function that computes: each function has a law for its contract, and the
//! lemmas that bodies above cite stand in `proofs/`.
//!
//! - `specs/Later`: how later stores stand to earlier ones. What was made keeps its number, a page
//!   its address, window, root and activation; a closed window stays closed, a page that isn't live
//!   stays so; the mass doesn't fall. All that inputs and turns do leaves later stores, whether the
//!   stores are valid or not.
//! - `specs/Keeps`, `specs/Reduced`: a change keeps stores, if the new ones are valid and no fewer
//!   things were made in them; and what operators, redexes and reductions leave.
//! - `proofs/Growing`: what is valid by counts of what was made is valid by greater ones, one lemma
//!   for each type that refers to something.
//! - Each change of stores has a lemma named `.._valid`: it takes valid stores, what is given as
//!   valid, and that there is no fault, and says that the stores are kept (`Acts`, `Calling`,
//!   `Asking`, `Answering`, `Cookies`, `Simple`, `NodeChanges`, `Texts`, `Queues`, `Slots`,
//!   `Starting`, `Making`, `Loading`, `Inserting`).
//! - Operators give valid values and keep stores (`Operating`, `Readings`, `Operate`), and so does
//!   one reduction (`Becoming`, `Reducing`), taking an input (`Inputs`), and a turn whose tasks are
//!   valid (`Working`).
//! - Tasks stay valid: a reduction leaves calls around the redex, a thousand at most (`TasksDepth`,
//!   `TasksPlacing`), and a turn and an input leave valid tasks (`TasksWorking`, `TasksBeginning`).
//!   So states stay valid, over whole runs (`States`).
//! - `specs/Puts`: an output that is well spelled, with the cookies of a request in order. From
//!   valid stores each output is one: what is read off stores (`OutputsRead`), the steps that put
//!   (`OutputsSteps`), operators and one reduction (`OutputsOperators`), turns and inputs
//!   (`OutputsTurns`). So is each output of a run over well spelled inputs (`OutputsRuns`).
//! - A walk of a valid tree comes to each node once at most (`Walks`), so the scripts of a tree
//!   each start once. That trees which are made or joined leave valid nodes is cited from
//!   `ff_machine`.
#![tactic(auto)]

mod keeping;
mod law;
mod putting;

pub use keeping::{
    a_reduction_keeps_stores_valid, counts_only_grow, inputs_and_turns_keep_stores_valid,
    nodes_keep_stores_valid, operators_keep_stores_valid, requests_and_cookies_keep_stores_valid,
    states_stay_valid, variables_keep_stores_valid, windows_keep_stores_valid,
};
pub use law::{
    a_page_that_is_not_live_never_runs, an_input_ends_at_rest, nothing_that_has_gone_comes_back,
    tags_change_nothing, what_was_made_stays,
};
pub use putting::{what_a_run_puts_is_well_spelled, what_is_put_is_well_spelled};
