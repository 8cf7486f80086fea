//! Who sees which input, what a release rule offers beyond that, and which output is let out.
//!
//! Floor: who may know. It knows not what a browser does with an input.
#![tactic(auto)]

mod law;
mod route;
mod rule;

pub use ff_name::NoMemory;
pub use law::{
    a_lower_level_sees_no_more, a_masked_input_has_the_levels_of_its_input,
    a_rule_makes_no_more_offers_than_its_quota, each_output_has_a_level,
    masking_twice_is_masking_once, names_tell_levels_apart,
    nothing_is_seen_exactly_below_the_presence, rules_that_make_no_offers_leave_what_is_seen,
    what_is_seen_is_the_input_or_its_mask,
};
pub use route::{keep, mask, offers, sees};
pub use rule::{Rule, is_of_use, rule_offers};
