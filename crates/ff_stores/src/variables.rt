//! Variables and activations.
ghost use Rattle.std.specs.Prelude.{◌≡◌, ◌+◌, ◌*◌, ◌<◌, length, IfOk, OnOk, All};
ghost use Rattle.ff_contract.specs.Rises.{RisesBy};
ghost use Rattle.ff_operators.specs.Answers.{Answers, OnFault};
ghost use Rattle.ff_tree.specs.Spelled.{IsVar, AreParams};
ghost use Rattle.ff_machine.specs.Windows as windows;
ghost use Rattle.ff_machine.specs.Reduction as red;
ghost use Rattle.ff_machine.specs.References.{made};
ghost use Rattle.ff_machine.specs.Valid.{IsVal};

use crate::stores::Stores;
use ff_contract::Steps;
use ff_name::Name;
use ff_operators::{Fail, fault_or_emptied};
use ff_value::{ActId, Names, Val};
use std::sync::ledger::Ledger;

impl Stores {
    /// Declares a variable in an activation, or overwrites it there. It is refused with `Limit`
    /// exactly where it is new and there is no room for one more.
    pub fn declare<C: Ledger>(
        &mut self,
        a: ActId,
        x: &Name,
        v: &Val,
        copies: &mut Steps<C>,
    ) -> Result<(), Fail>
        requires lives { a.0 < length self.old.windows.acts }
        requires name { IsVar x.now }
        requires value { IsVal (made self.old) v.now }
        ensures done { OnOk result (self.new ≡ red.with_acts self.old
            (windows.set_var self.old.windows.acts a x.now v.now)) }
        ensures answer { Answers (windows.declare_fault self.old.windows.acts a x.now) result }
        ensures kept { OnFault result (self.new ≡ self.old) }
        ensures copies { RisesBy 64 copies.old copies.new }
    {
        fault_or_emptied!(self.windows.declare(a, x, v, copies), nothing_left!(self))
    }

    /// Assigns the nearest variable of that name. It is refused with `Name` exactly where there is
    /// none.
    pub fn assign<C: Ledger>(
        &mut self,
        a: ActId,
        x: &Name,
        v: &Val,
        copies: &mut Steps<C>,
    ) -> Result<(), Fail>
        requires lives { a.0 < length self.old.windows.acts }
        requires value { IsVal (made self.old) v.now }
        ensures done { OnOk result (self.new ≡ red.with_acts self.old
            (windows.assigned self.old.windows.acts (windows.holder self.old.windows.acts a x.now)
            x.now v.now)) }
        ensures answer { Answers (windows.assign_fault
            (windows.holder self.old.windows.acts a x.now)) result }
        ensures kept { OnFault result (self.new ≡ self.old) }
        ensures copies { RisesBy 64 copies.old copies.new }
    {
        fault_or_emptied!(self.windows.assign(a, x, v, copies), nothing_left!(self))
    }

    /// Makes an activation in which a function runs, with a variable for each parameter. It is
    /// refused with `Limit` exactly where there is no room for it or its variables.
    pub fn new_act<C: Ledger>(
        &mut self,
        parent: ActId,
        params: &Names,
        args: &[Val],
        copies: &mut Steps<C>,
    ) -> Result<ActId, Fail>
        requires lives { parent.0 < length self.old.windows.acts }
        requires lengths { length params.now ≡ length args.now }
        requires names { AreParams params.now }
        requires values { All (IsVal (made self.old)) args.now }
        ensures done { OnOk result (self.new ≡ red.with_acts self.old
            (windows.with_act self.old.windows.acts parent params.now args.now)) }
        ensures number { IfOk result (λ n. n ≡ windows.next_act self.old.windows) }
        ensures answer { Answers (windows.call_fault self.old.windows.acts (length params.now))
            result }
        ensures kept { OnFault result (self.new ≡ self.old) }
        ensures copies { RisesBy (64 * (length params.now + 1)) copies.old copies.new }
    {
        fault_or_emptied!(
            self.windows.new_act(parent, params, args, copies),
            nothing_left!(self)
        )
    }
}
