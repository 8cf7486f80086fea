//! Activations that are made of records.
ghost use Rattle.std.specs.Prelude.{◌≡◌, ◌≤◌, ◌<◌, ◌↔◌, ◌∷◌, ◌++◌, [], cond, Some, None, IsTrue, IfOk};
ghost use Rattle.std.specs.Option.{ForSome};
ghost use Rattle.std.specs.Ordering.{is_lt, nat_cmp};
ghost use Rattle.std.specs.Cmp.Lexicographic.{slice_cmp};
ghost use Rattle.ff_tree.specs.Spelled.{IsVar};
ghost use Rattle.ff_value.specs.Spelled.{IsWellSpelledVal};
ghost use Rattle.ff_machine.specs.Alone.{AreActs};
ghost use Rattle.ff_records.specs.Records.{act_recs};
ghost use Rattle.ff_records.specs.Restored.{Restores};
ghost use Rattle.ff_acts.specs.Recorded.{Rise};

use crate::acts::Acts;
use ff_contract::Steps;
use ff_machine::MOST_ACTS;
use ff_name::NoMemory;
use ff_operators::Fail;
use ff_records::{ActRec, ActRecs, Variable};
use ff_spelling::{is_value, is_var};
use ff_value::ActId;
use std::alloc::{AllocError, Global};
use std::sync::ledger::Ledger;

impl Acts {
    /// The activations that have these records, whose names and values they share. `None` exactly
    /// where no valid activations have them: a parent wasn't made before, variables aren't in byte
    /// order or one stands twice, a variable or a value is not well spelled, or there are too many.
    pub fn restore<C: Ledger>(
        alloc: Global,
        recs: &ActRecs,
        copies: &mut Steps<C>,
    ) -> Result<Option<Acts>, NoMemory>
        ensures value { IfOk result (Restores AreActs act_recs recs.now) }
        ensures later { copies.old ≤ copies.new }
    {
        let recs = recs.as_slice();
        let mut acts = Acts::new(alloc);
        for rec in recs {
            let added = add_recorded(alloc, &mut acts, rec, copies)?;
            if !added {
                return Ok(None);
            }
        }
        Ok(Some(acts))
    }
}

/// Puts the activation of a record behind the others, and answers whether it may be the next one.
/// After `false` and after want of memory the activations are not stated.
fn add_recorded<C: Ledger>(
    alloc: Global,
    acts: &mut Acts,
    rec: &ActRec,
    copies: &mut Steps<C>,
) -> Result<bool, NoMemory>
    requires valid { AreActs acts.old }
    ensures value { IfOk result (λ added. Restores AreActs act_recs
        (act_recs acts.old ++ rec.now ∷ []) (cond added (Some acts.new) None)) }
    ensures later { copies.old ≤ copies.new }
{
    let number = acts.len();
    let vars = rec.vars.as_slice();
    if number >= MOST_ACTS {
        return Ok(false);
    }
    if !is_before(rec.parent, number) {
        return Ok(false);
    }
    if !rise(vars) {
        return Ok(false);
    }
    acts.push_act(rec.parent, copies)?;
    for variable in vars {
        let valid = is_variable(alloc, variable)?;
        if !valid {
            return Ok(false);
        }
        match acts.declare(ActId(number), &variable.name, &variable.value, copies) {
            Ok(()) => {}
            Err(Fail::Fault(_)) => return Ok(false),
            Err(Fail::NoMemory) => return Err(AllocError),
        }
    }
    Ok(true)
}

/// Whether a parent, where there is one, has a smaller number.
fn is_before(parent: Option<ActId>, number: u32) -> bool
    ensures { IsTrue result ↔ ForSome parent (λ p. p.0 < number) }
{
    match parent {
        Some(p) => p.0 < number,
        None => true,
    }
}

/// Whether a variable may be one, and its value is well spelled.
fn is_variable(alloc: Global, variable: &Variable) -> Result<bool, NoMemory>
    ensures { IfOk result (λ is. IsTrue is ↔ (IsVar variable.now.name
        × IsWellSpelledVal variable.now.value)) }
{
    let has_value = is_value(alloc, &variable.value)?;
    Ok(is_var(&variable.name) && has_value)
}

/// Whether variables are in byte order of their names, and none stands twice.
fn rise(vars: &[Variable]) -> bool
    ensures { IsTrue result ↔ Rise vars.now }
{
    let count = vars.len();
    if count == 0 {
        return true;
    }
    let mut i = count - 1;
    while i > 0 {
        if !comes_after(&vars[i], &vars[i - 1]) {
            return false;
        }
        i -= 1;
    }
    true
}

/// Whether the name of a variable comes after that of another in byte order.
fn comes_after(variable: &Variable, before: &Variable) -> bool
    ensures { result ≡ is_lt (slice_cmp nat_cmp before.now.name variable.now.name) }
{
    before.name.cmp(&variable.name).is_lt()
}
