//! Activations as records.
//!
//! Variables of all activations lie in one list in order of declaration, so one activation's record
//! is read off all of it, and the records of all activations off it once: each variable is put into
//! the map of its activation, from the last to the first, and a map's entries are in order.
ghost use Rattle.std.specs.Prelude.{◌≡◌, ◌<◌, [], IfOk, OnOk, length, map};
ghost use Rattle.std.specs.Ordering.{nat_cmp};
ghost use Rattle.std.specs.Cmp.Lexicographic.{slice_cmp};
ghost use Rattle.std.specs.BTreeMap.{insert_entry};
ghost use Rattle.std.specs.FinMap as finmap;
ghost use Rattle.ff_machine.specs.Windows as windows;
ghost use Rattle.ff_records.specs.Records.{act_rec, act_recs, variable};
ghost use Rattle.ff_acts.specs.Held.{AreHeld, seen, vars_in};
ghost use Rattle.ff_acts.specs.Recorded.{AreSorted, OwnersLive};

use crate::acts::Acts;
use crate::cells::{ActCell, VarCell, cell_at};
use ff_cow::CowVec;
use ff_name::{Name, NoMemory};
use ff_records::{ActRec, ActRecs, Variable, Vars};
use ff_value::{ActId, Val};
use std::alloc::{AllocError, Global};
use std::collections::BTreeMap;

/// The variables of one activation, in byte order of their names.
type Sorted = BTreeMap<Name, Val>;

impl Acts {
    /// An activation as a record, which shares its names and values. All variables of the browser
    /// are gone over: [`Acts::records`] does so once for all activations.
    pub fn act_record(&self, a: ActId) -> Result<ActRec, NoMemory>
        requires { a.0 < length self.now }
        ensures { IfOk result (λ rec. rec ≡ act_rec (windows.act_at self.now a)) }
    {
        let sorted = sorted_of(self.alloc, &self.vars, a)?;
        Ok(ActRec {
            parent: cell_at(&self.acts, a.0).parent,
            vars: vars_of(self.alloc, sorted)?,
        })
    }

    /// All activations as records by their numbers. The variables are gone over once.
    pub fn records(&self) -> Result<ActRecs, NoMemory>
        ensures { IfOk result (λ recs. recs ≡ act_recs self.now) }
    {
        records_of(self.alloc, &self.acts, &self.vars)
    }
}

/// The records of the activations that the cells are.
fn records_of(
    alloc: Global,
    acts: &CowVec<ActCell>,
    vars: &CowVec<VarCell>,
) -> Result<ActRecs, NoMemory>
    requires { AreHeld acts.now vars.now }
    ensures { IfOk result (λ recs. recs ≡ act_recs (seen acts.now vars.now)) }
{
    let mut each = no_variables(alloc, acts.len())?;
    sort_each(&mut each, vars)?;
    let mut recs = Vec::new(alloc);
    let mut a = 0;
    for sorted in each {
        let parent = cell_at(acts, a).parent;
        let vars = vars_of(alloc, sorted)?;
        recs.push(ActRec { parent, vars })?;
        a += 1;
    }
    Ok(ActRecs::from_vec(recs))
}

/// So many activations without variables.
fn no_variables(alloc: Global, count: u32) -> Result<Vec<Sorted>, NoMemory>
    ensures count { IfOk result (λ each. length each.items ≡ count) }
    ensures empty { IfOk result (λ each. AreSorted [] 0 each.items) }
{
    let mut each = Vec::new(alloc);
    for _act in 0..count {
        each.push(BTreeMap::new(alloc))?;
    }
    Ok(each)
}

/// Puts each variable among those of its activation. After want of memory they are not stated.
fn sort_each(each: &mut [Sorted], vars: &CowVec<VarCell>) -> Result<(), NoMemory>
    requires empty { AreSorted [] 0 each.old }
    requires owners { OwnersLive vars.now (length each.old) }
    ensures sorted { OnOk result (AreSorted vars.now 0 each.new) }
    ensures count { length each.new ≡ length each.old }
{
    let mut i = vars.len();
    while i > 0 {
        i -= 1;
        let cell = cell_at(vars, i);
        put(&mut each[cell.owner.0 as usize], cell)?;
    }
    Ok(())
}

/// The variables of one activation.
fn sorted_of(alloc: Global, vars: &CowVec<VarCell>, a: ActId) -> Result<Sorted, NoMemory>
    ensures { IfOk result (λ sorted. sorted.entries ≡ finmap.entries (vars_in vars.now a.0)) }
{
    let mut sorted = BTreeMap::new(alloc);
    let mut i = vars.len();
    while i > 0 {
        i -= 1;
        let cell = cell_at(vars, i);
        if cell.owner.0 == a.0 {
            put(&mut sorted, cell)?;
        }
    }
    Ok(sorted)
}

/// Puts a variable, which shares its name and value, among those of its activation. After want of
/// memory they are not stated.
fn put(sorted: &mut Sorted, cell: &VarCell) -> Result<(), NoMemory>
    ensures { OnOk result (sorted.new.entries
        ≡ insert_entry (slice_cmp nat_cmp) sorted.old.entries cell.now.name cell.now.value) }
{
    let name = cell.name.copy()?;
    let value = cell.value.copy()?;
    match sorted.insert(name, value) {
        Ok(_) => Ok(()),
        Err(_) => Err(AllocError),
    }
}

/// The variables as records.
fn vars_of(alloc: Global, sorted: Sorted) -> Result<Vars, NoMemory>
    ensures { IfOk result (λ vars. vars ≡ map variable sorted.entries) }
{
    let mut vars = Vec::new(alloc);
    for (name, value) in sorted {
        vars.push(Variable { name, value })?;
    }
    Ok(Vars::from_vec(vars))
}
