//! Runtime expressions: expressions with values in the place of evaluated parts, rewritten at the
//! leftmost redex.
//!
//! Floor: one browser. It knows of no levels.
//!
//! Definitions, their laws, and one limit. `specs/Running` says what a runtime expression is and
//! how it is rewritten, `specs/Whole` which one a script is, `specs/Rows` what a redex becomes that
//! no store decides, `specs/Redex` what a redex is as far as the stores decide, `specs/Redexes` how
//! it is read off an expression, `specs/Satisfies` what holds of each thing in an expression, and
//! `specs/Calls` which calls stand around the redex.
#![tactic(auto)]

/// The most calls that stand inside one another.
pub const MOST_CALLS: u32 = 1_000;
