//! Activations and their variables.
ghost use Rattle.std.specs.Prelude.{◌≡◌, ◌+◌, ◌*◌, ◌<◌, length, All, IfOk, OnOk};
ghost use Rattle.std.specs.Option.{option_copied};
ghost use Rattle.ff_contract.specs.Rises.{RisesBy};
ghost use Rattle.ff_machine.specs.Windows as w;
ghost use Rattle.ff_operators.specs.Answers.{Answers, OnFault};
ghost use Rattle.ff_tree.specs.Spelled.{IsVar, AreParams};
ghost use Rattle.ff_value.specs.Spelled.{IsWellSpelledVal};

use crate::windows::Windows;
use ff_contract::Steps;
use ff_name::Name;
use ff_operators::{Fail, fault_or_emptied};
use ff_value::{ActId, Names, Val};
use std::sync::ledger::Ledger;

impl Windows {
    /// The value of the nearest variable of a name, from an activation that there is outwards,
    /// lent.
    pub fn lookup(&self, a: ActId, x: &Name) -> Option<&Val>
        requires { a.0 < length self.now.acts }
        ensures { option_copied result ≡ w.lookup self.now.acts a x.now }
    {
        self.acts().lookup(a, x)
    }

    /// Gives a variable of an activation that there is a well spelled value, and declares it there
    /// if it is new. It is refused with `Limit` exactly where it is new and 1,048,576 variables
    /// were declared, and then nothing has changed.
    pub fn declare<C: Ledger>(
        &mut self,
        a: ActId,
        x: &Name,
        v: &Val,
        copies: &mut Steps<C>,
    ) -> Result<(), Fail>
        requires lives { a.0 < length self.old.acts }
        requires name { IsVar x.now }
        requires value { IsWellSpelledVal v.now }
        ensures done { OnOk result (self.new ≡ w.with_acts self.old
            (w.set_var self.old.acts a x.now v.now)) }
        ensures answer { Answers (w.declare_fault self.old.acts a x.now) result }
        ensures kept { OnFault result (self.new ≡ self.old) }
        ensures copies { RisesBy 64 copies.old copies.new }
    {
        fault_or_emptied!(
            self.acts.declare(a, x, v, copies),
            *self = Windows::new(self.alloc)
        )
    }

    /// Gives the nearest variable of a name another well spelled value, from an activation that
    /// there is outwards. It is refused with `Name` exactly where there is none, and then nothing
    /// has changed.
    pub fn assign<C: Ledger>(
        &mut self,
        a: ActId,
        x: &Name,
        v: &Val,
        copies: &mut Steps<C>,
    ) -> Result<(), Fail>
        requires lives { a.0 < length self.old.acts }
        requires value { IsWellSpelledVal v.now }
        ensures done { OnOk result (self.new ≡ w.with_acts self.old
            (w.assigned self.old.acts (w.holder self.old.acts a x.now) x.now v.now)) }
        ensures answer { Answers (w.assign_fault (w.holder self.old.acts a x.now)) result }
        ensures kept { OnFault result (self.new ≡ self.old) }
        ensures copies { RisesBy 64 copies.old copies.new }
    {
        fault_or_emptied!(
            self.acts.assign(a, x, v, copies),
            *self = Windows::new(self.alloc)
        )
    }

    /// Makes an activation under one that there is, in which parameters that differ are declared
    /// with their well spelled arguments, as many. It is refused with `Limit` exactly where there
    /// are 524,288 activations, or no room for so many variables, and then nothing has changed.
    pub fn new_act<C: Ledger>(
        &mut self,
        parent: ActId,
        params: &Names,
        args: &[Val],
        copies: &mut Steps<C>,
    ) -> Result<ActId, Fail>
        requires lives { parent.0 < length self.old.acts }
        requires lengths { length params.now ≡ length args.now }
        requires names { AreParams params.now }
        requires values { All IsWellSpelledVal args.now }
        ensures done { OnOk result (self.new ≡ w.with_acts self.old
            (w.with_act self.old.acts parent params.now args.now)) }
        ensures number { IfOk result (λ a. a ≡ w.next_act self.old) }
        ensures answer { Answers (w.call_fault self.old.acts (length params.now)) result }
        ensures kept { OnFault result (self.new ≡ self.old) }
        ensures copies { RisesBy (64 * (length params.now + 1)) copies.old copies.new }
    {
        fault_or_emptied!(
            self.acts.new_act(parent, params, args, copies),
            *self = Windows::new(self.alloc)
        )
    }
}
