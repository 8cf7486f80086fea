//! The browser.

use crate::parts::Parts;
use ff_contract::Steps;
use ff_name::NoMemory;
use ff_restorable::{Reactor, Restorable};
use ff_stores::Stores;
use ff_value::{Input, Out};
use std::alloc::Global;
use std::marker::Model;
use std::sync::ledger::Ledger;

/// A browser: its stores, the fuel that each input brings, the fuel that is left, its tasks, and
/// whether it is quiet. It is valid at all times.
pub struct Browser {
    parts: Parts,
}

// Written out, so that the proof of a caller sees one call and not a part for each field.
impl Drop for Browser {
    fn drop(self) {
        let Browser { parts: _parts } = self;
    }
}

impl Model for Browser {
    ghost use Rattle.ff_machine.specs.State as record_of;
    ghost use Rattle.ff_machine.specs.Codes.{coded_state};

    ghost Value = { record_of.State };

    ghost coded = { coded_state };

    ghost use Rattle.ff_machine.specs.Valid.{IsState};

    ghost view = { λ b. b.parts };

    ghost invariant = { λ b. IsState b.parts.budget b.parts };
}

impl Reactor for Browser {
    ghost use Rattle.ff_core.specs.Copies.{turning as cells};
    ghost use Rattle.ff_core.specs.Copies.{dropping_none, settling_none, stopping_none};

    ghost state = { λ browser. browser };

    ghost turning = { cells };

    ghost settles = { settling_none };

    ghost stops = { stopping_none };

    ghost drops = { dropping_none };

    fn new(alloc: Global, fuel: u32) -> Browser {
        Browser {
            parts: Parts::new(alloc, fuel),
        }
    }

    fn fork<C: Ledger>(&self, copies: &mut Steps<C>) -> Result<Browser, NoMemory> {
        Ok(Browser {
            parts: self.parts.fork(copies)?,
        })
    }

    fn quiet(&self) -> bool {
        self.parts.quiet
    }

    fn accept<C: Ledger>(
        &mut self,
        input: &Input,
        outs: &mut Vec<Out>,
        copies: &mut Steps<C>,
    ) -> Result<(), NoMemory> {
        let budget = self.parts.budget;
        match self.parts.begin(input, outs, copies) {
            Ok(()) => Ok(()),
            Err(refused) => {
                self.parts.reset(budget);
                Err(refused)
            }
        }
    }

    fn turn<C: Ledger, L: Ledger>(
        &mut self,
        outs: &mut Vec<Out>,
        copies: &mut Steps<C>,
        turns: &mut Steps<L>,
    ) -> Result<(), NoMemory> {
        turns.tick();
        let budget = self.parts.budget;
        match self.parts.turn(outs, copies) {
            Ok(()) => Ok(()),
            Err(refused) => {
                self.parts.reset(budget);
                Err(refused)
            }
        }
    }
}

impl Restorable for Browser {
    fn stores(&self) -> &Stores {
        &self.parts.stores
    }

    fn restore(alloc: Global, fuel: u32, stores: Stores) -> Browser {
        let _known = stores.nodes();
        Browser {
            parts: Parts::resting(alloc, fuel, stores),
        }
    }
}
