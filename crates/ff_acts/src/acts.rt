//! The activations of one browser.
ghost use Rattle.std.specs.Prelude.{◌≡◌, ◌+◌, ◌*◌, ◌<◌, ◌≤◌, [], ◌∷◌, ◌++◌, length, IfOk, OnOk};
ghost use Rattle.std.specs.FinMap as finmap;
ghost use Rattle.std.specs.Option.{ForSome, option_copied};
ghost use Rattle.ff_contract.specs.Rises.{RisesBy};
ghost use Rattle.ff_tree.specs.Spelled.{IsVar, AreParams};
ghost use Rattle.ff_machine.specs.Windows as windows;
ghost use Rattle.ff_machine.specs.declared.limits.TheConstants.{MOST_ACTS};
ghost use Rattle.ff_operators.specs.Answers.{Answers, OnFault};

use crate::cells::{ActCell, VarCell, cell_at};
use crate::digits::spread_of;
use crate::growing::{grow, write};
use crate::searching::{Stop, nearest, search};
use ff_contract::Steps;
use ff_cow::CowVec;
use ff_machine::{MOST_ACTS, MOST_VARS};
use ff_name::{Name, NoMemory};
use ff_operators::Fail;
use ff_tree::Names;
use ff_value::{ActId, Fault, Val};
use std::alloc::{AllocError, Global};
use std::marker::Model;
use std::sync::ledger::Ledger;

/// The activations, seen as the list of all that were ever made. There are at most `MOST_ACTS`, and
/// at most `MOST_VARS` variables in all of them together.
#[derive(Drop)]
pub struct Acts {
    pub(crate) alloc: Global,
    pub(crate) acts: CowVec<ActCell>,
    pub(crate) vars: CowVec<VarCell>,
}

impl Model for Acts {
    ghost use Rattle.std.specs.Prelude.{List};
    ghost use Rattle.ff_machine.specs.Windows.{Activation};
    ghost use Rattle.ff_acts.specs.Codes.{coded_acts};

    ghost Value = { List Activation };

    ghost coded = { coded_acts };

    ghost use Rattle.ff_acts.specs.Held.{seen, AreHeld};

    ghost view = { λ a. seen a.acts a.vars };

    ghost invariant = { λ a. AreHeld a.acts a.vars };
}

impl Acts {
    /// No activations, which takes no memory. What they grow by is taken from `alloc`.
    pub fn new(alloc: Global) -> Acts
        ensures { result ≡ [] }
    {
        Acts {
            alloc,
            acts: CowVec::new(alloc),
            vars: CowVec::new(alloc),
        }
    }

    /// How many activations there are.
    pub fn len(&self) -> u32
        ensures value { result ≡ length self.now }
        ensures bound { result ≤ MOST_ACTS }
    {
        self.acts.len()
    }

    /// Puts an activation without parent and variables at the end. It is refused only for want of
    /// memory.
    pub fn add<C: Ledger>(&mut self, copies: &mut Steps<C>) -> Result<(), NoMemory>
        requires { length self.old < MOST_ACTS }
        ensures done { OnOk result (self.new ≡ self.old ++ windows.no_act ∷ []) }
        ensures copies { RisesBy 15 copies.old copies.new }
    {
        self.push_act(None, copies)
    }

    /// Puts an activation without variables at the end.
    pub(crate) fn push_act<C: Ledger>(
        &mut self,
        parent: Option<ActId>,
        copies: &mut Steps<C>,
    ) -> Result<(), NoMemory>
        requires room { length self.old < MOST_ACTS }
        requires lives { ForSome parent (λ p. p.0 < length self.old) }
        ensures done { OnOk result (self.new ≡ self.old
            ++ record { parent = parent; vars = finmap.empty } ∷ []) }
        ensures copies { RisesBy 15 copies.old copies.new }
    {
        let Ok(()) = self.acts.push(ActCell { parent, top: None }, copies) else {
            return Err(AllocError);
        };
        Ok(())
    }

    /// Makes an activation under a parent, with its parameters declared, and answers its number. It
    /// is refused with `Limit` exactly where it, or its parameters, would be more than there may
    /// be; then nothing has changed. After want of memory the activations are not stated.
    pub fn new_act<C: Ledger>(
        &mut self,
        parent: ActId,
        params: &Names,
        args: &[Val],
        copies: &mut Steps<C>,
    ) -> Result<ActId, Fail>
        requires lives { parent.0 < length self.old }
        requires lengths { length params.now ≡ length args.now }
        requires names { AreParams params.now }
        ensures done { OnOk result (self.new ≡ windows.with_act self.old parent params.now
            args.now) }
        ensures number { IfOk result (λ n. n.0 ≡ length self.old) }
        ensures answer { Answers (windows.call_fault self.old (length params.now)) result }
        ensures kept { OnFault result (self.new ≡ self.old) }
        ensures copies { RisesBy (64 * (length params.now + 1)) copies.old copies.new }
    {
        let number = self.acts.len();
        let room = (MOST_VARS - self.vars.len()) as usize;
        let names = params.as_slice();
        if number >= MOST_ACTS || names.len() > room {
            return Err(Fail::Fault(Fault::Limit));
        }
        self.push_act(Some(parent), copies)?;
        for i in 0..names.len() {
            // There is room for it, so that it is refused only for want of memory.
            let Ok(()) = self.declare(ActId(number), &names[i], &args[i], copies) else {
                return Err(Fail::NoMemory);
            };
        }
        Ok(ActId(number))
    }

    /// The value, lent, of the nearest variable of that name: the activation's, or that of the
    /// nearest one around it that has it.
    pub fn lookup(&self, a: ActId, name: &Name) -> Option<&Val>
        requires { a.0 < length self.now }
        ensures { option_copied result ≡ windows.lookup self.now a name.now }
    {
        match nearest(&self.acts, &self.vars, a, name) {
            Some(k) => Some(cell_at(&self.vars, k).value()),
            None => None,
        }
    }

    /// Declares a variable of the activation, or gives it another value where the activation has
    /// it. It is refused with `Limit` exactly where the variable is new and there are `MOST_VARS`;
    /// then nothing has changed. After want of memory the activations are not stated.
    pub fn declare<C: Ledger>(
        &mut self,
        a: ActId,
        name: &Name,
        value: &Val,
        copies: &mut Steps<C>,
    ) -> Result<(), Fail>
        requires lives { a.0 < length self.old }
        requires name { IsVar name.now }
        ensures done { OnOk result (self.new ≡ windows.set_var self.old a name.now value.now) }
        ensures answer { Answers (windows.declare_fault self.old a name.now) result }
        ensures kept { OnFault result (self.new ≡ self.old) }
        ensures copies { RisesBy 64 copies.old copies.new }
    {
        match search(&self.acts, &self.vars, a, name, spread_of(name)) {
            Stop::Found(k) => write(&mut self.vars, k, value, copies)?,
            Stop::Open(place) => {
                if self.vars.len() >= MOST_VARS {
                    return Err(Fail::Fault(Fault::Limit));
                }
                let cell = VarCell::of(a, name, value)?;
                let Ok(()) = grow(&mut self.acts, &mut self.vars, place, cell, copies) else {
                    *self = Acts::new(self.alloc);
                    return Err(Fail::NoMemory);
                };
            }
        }
        Ok(())
    }

    /// Gives the nearest variable of that name another value. It is refused with `Name` exactly
    /// where neither the activation nor one around it has the variable; then nothing has changed.
    /// After want of memory the activations are not stated.
    pub fn assign<C: Ledger>(
        &mut self,
        a: ActId,
        name: &Name,
        value: &Val,
        copies: &mut Steps<C>,
    ) -> Result<(), Fail>
        requires lives { a.0 < length self.old }
        ensures done { OnOk result (self.new ≡ windows.assigned self.old
            (windows.holder self.old a name.now) name.now value.now) }
        ensures answer { Answers (windows.assign_fault (windows.holder self.old a name.now))
            result }
        ensures kept { OnFault result (self.new ≡ self.old) }
        ensures copies { RisesBy 64 copies.old copies.new }
    {
        let Some(k) = nearest(&self.acts, &self.vars, a, name) else {
            return Err(Fail::Fault(Fault::Name));
        };
        write(&mut self.vars, k, value, copies)?;
        Ok(())
    }

    /// Equal activations that share their variables with these: none is copied, and no later change
    /// of one of the two is seen in the other.
    pub fn fork<C: Ledger>(&self, copies: &mut Steps<C>) -> Result<Acts, NoMemory>
        ensures equal { IfOk result (λ acts. acts ≡ self.now) }
        ensures copies { copies.new ≡ copies.old }
    {
        Ok(Acts {
            alloc: self.alloc,
            acts: self.acts.fork(copies)?,
            vars: self.vars.fork(copies)?,
        })
    }
}
