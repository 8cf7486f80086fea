//! Runs of reactive machines, alone and multi-executed, and what their text tells at each level.
//!
//! Floor: confinement. It knows no browser, and no bytes of ours.
//!
//! This crate has no functions. Its definitions (`specs/`) are what the contracts of the crates
//! above cite, and its laws (`proofs/`) are proved once for every machine and for all levels, so
//! that those crates only have to say which machine and which levels they have.
//!
//! # Definitions
//!
//! - `Runs`: a `Machine` has a state to start in and handles one input after another; handling an
//!   input gives outputs, the state after it and a number of turns. `plain` is its run alone, one
//!   entry of outputs for each input, `after` the state then, `work_plain` all its turns. The idea
//!   is that of a reactive system, which puts out a list of outputs for each input (Bohannon and
//!   Pierce, 2010).
//! - `Copies`: `Levels` say how many levels there are, which is at or below which, what each sees
//!   of an input, and which level an output belongs to. `seen` is all that a level sees, in order:
//!   the projection of the inputs to a level (Bielova and others, 2011). Each level has a `copy` of
//!   the machine, which handles only what the level sees and puts out only what belongs to the
//!   level; `multi` is the run of all the copies together, for each input level by level. That is
//!   secure multi-execution (Devriese and Piessens, 2010). The definition has no state: each entry
//!   of a copy is read off a plain run over all that its level has seen up to then.
//! - `Text`: `text_out` is the text of a run, a line for each output, headed by the name of the
//!   output's level. `view` keeps the lines of a text whose first word names a level at or below a
//!   given one, and `only` those whose first word names that level itself. Both read bytes and know
//!   nothing of where these came from.
//! - `Laws`: `IsLawful` is what the levels need in order to fit the machine. The claims on a text
//!   are `IsProjection`, `IsSecure` and `IsPrecise`, and `IsNoninterfering` is the claim on all
//!   pairs of lists of inputs.
//! - `Turns`: a `Reactor` handles an input in turns until it is quiet, `settle` makes them, and
//!   `machine_of` is the machine that it is. `IsFuelled` says that turns spend fuel, `IsSettling`
//!   where a loop of turns stands.
//! - `Sharing`: `work` is the number of turns where copies that have seen the same so far are one
//!   copy, and each turn of such a class is made once.
//! - `Worlds`: a `World` has for each level a copy of a reactor, with the inputs that wait for it
//!   and the outputs that nobody took, and its class, the levels that have been one copy so far.
//!   `world_arrive`, `world_turn` and `world_take` are its steps, `world_drain` is what all classes
//!   come to, and `world_left` the turns that this takes, each class once. `IsPlayed` is what holds
//!   after any list of arrivals and turns.
//! - `Standings`: runs of copies from anywhere. A `Standing` is where the copies of all levels
//! stand and which levels are one copy, an `Offering` what a level is offered of an input after the
//! inputs before it. `run`, `work_of` and `standing_after` are what is put, the turns, and where
//! the copies then stand. `multi` and `work` are the run of new copies (`fresh`) that are offered
//! what their levels see (`as_seen`).
//! - `Rested`: `IsRested` and `IsTaking` say where a world stands between and within the inputs of
//!   such a run.
//! - `Given`: what the levels at or below a level are offered, and the claim that the level's view
//!   depends on that alone.
//!
//! # Laws
//!
//! Of levels that fit a machine, on well formed inputs (`proofs/Laws.antt`):
//!
//! - `projection`: a level's own lines are the text of the plain machine's outputs at that level,
//!   on the inputs that the level sees.
//! - `noninterference`: lists of inputs that look the same to a level give it the same view, byte
//!   by byte, the order of lines between levels included.
//! - `precision`: where the plain machine's outputs at a level don't depend on what the level
//!   doesn't see, the level's own lines are those of the plain machine on all the inputs.
//!
//! `projected`, `secured` and `precised` say the same of any text that is known to be that of the
//! multi-executed run, and `noninterfering` of all pairs. `proofs/Turns.antt` has the steps of a
//! loop of turns, with the bound that fuel gives: an input that brings at most `most` fuel is
//! handled to its end in at most `most + 1` turns. `proofs/Sharing.antt` has the work of one more
//! input, and shows that where all levels see all, the work is that of the one plain run.
//!
//! Of runs from anywhere: `proofs/Standings.antt` shows that the multi-executed run is the instance
//! that its definition says (`run_fresh`, `work_fresh`), and that a run over two lists of inputs is
//! the run over the first and then, from where the copies stand, over the second (`run_rest`).
//! `proofs/Alike.antt` shows that one copy has one state, and that runs from where copies stand
//! alike are the same. `proofs/Given.antt` has the law of views: where the levels at or below a
//! level are offered the same, its view is the same (`secured_as_offered`).
//!
//! Of worlds of copies, where the reactor ends each input within some number of turns (`Ends`,
//! which fuel gives):
//!
//! - `proofs/Worlds.antt`: each step keeps the world well formed, with levels of one class alike. A
//!   step leaves what the world comes to as it is, and lowers what is left by the turns it counts.
//! - `every_schedule` (`proofs/Schedules.antt`): after any list of events from a new world, what a
//! level has put begins its plain run over what it was offered, and is all of that where it has no
//! work; its class are the levels that were offered the same each time.
//! - `proofs/Resting.antt`: an input that arrives at a world at rest, is drained and is taken level
//!   by level gives at each level exactly the entry of the multi-executed run, and what was left
//!   after the arrival is exactly the input's part of the work of shared copies.
//!
//! `proofs/Rows.antt` runs a machine of two levels by hand.
#![tactic(auto)]
