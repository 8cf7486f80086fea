//! The reactor.
ghost use Rattle.std.specs.Prelude.{◌≡◌, ◌+◌, ◌≤◌, ◌∷◌, ℕ, None, List, false, IsTrue, IfOk, OnErr, OnOk};
ghost use Rattle.ff_contract.specs.Appending.{Appends};
ghost use Rattle.ff_value.specs.Spelled.{IsWellSpelledInput};
ghost use Rattle.ff_machine.specs.State.{State, Task, empty};
ghost use Rattle.ff_machine.specs.Turns.{next_work};
ghost use Rattle.ff_machine.specs.Windows.{is_live};
ghost use Rattle.ff_machine.specs.Valid.{IsState};
ghost use Rattle.ff_machine.specs.Machine.{reactor};
ghost use Rattle.ff_contract.specs.Rises.{RisesBy};

use ff_contract::Steps;
use ff_name::NoMemory;
use ff_value::{Input, Out};
use std::alloc::Global;
use std::sync::ledger::Ledger;

/// The most fuel that an input may bring.
pub const MOST_BUDGET: u32 = 1_000_000;

/// A browser in a state of the written machine: quiet, it takes an input; else it makes one turn
/// after another until it is quiet again. It is valid at all times.
pub trait Reactor: Drop {
    /// The state that it is in.
    ghost state: { Self → State };

    /// How many cells a turn of a state copies at most.
    ghost turning: { State → ℕ };

    /// One to which each input brings so much fuel, from 1 to [`MOST_BUDGET`]. It has no window and
    /// no request, and is quiet.
    fn new(alloc: Global, fuel: u32) -> Self
        requires some { 1 ≤ fuel }
        requires few { fuel ≤ MOST_BUDGET }
        ensures { state result ≡ empty fuel };

    /// An equal one, and neither changes with the other: no cell is copied.
    fn fork<C: Ledger>(&self, copies: &mut Steps<C>) -> Result<Self, NoMemory>
        ensures equal { IfOk result (λ fork. state fork ≡ state self.now) }
        ensures copies { copies.new ≡ copies.old };

    /// Whether it takes an input. If not, it has turns to make.
    fn quiet(&self) -> bool
        ensures answer { result ≡ (state self.now).quiet }
        ensures valid { IsState (state self.now).budget (state self.now) };

    /// Takes an input, which may put outputs. It is then not quiet. Where memory is refused, `outs`
    /// has gained some of the outputs from the front, and the state is a new one of the same
    /// budget. `copies` counts the cells that are copied.
    fn accept<C: Ledger>(
        &mut self,
        input: &Input,
        outs: &mut Vec<Out>,
        copies: &mut Steps<C>,
    ) -> Result<(), NoMemory>
        requires quiet { IsTrue (state self.old).quiet }
        requires input { IsWellSpelledInput input.now }
        ensures done { OnOk result (state self.new
            ≡ ((reactor (state self.old).budget).begin (state self.old) input.now).after) }
        ensures busy { OnOk result ((state self.new).quiet ≡ false) }
        ensures outputs { Appends result outs.old.items outs.new.items
            ((reactor (state self.old).budget).begin (state self.old) input.now).outputs }
        ensures emptied { OnErr result (state self.new ≡ empty (state self.old).budget) }
        ensures budget { (state self.new).budget ≡ (state self.old).budget }
        ensures valid { IsState (state self.old).budget (state self.new) }
        ensures later { copies.old ≤ copies.new };

    /// One turn, which may put outputs: with nothing to do it settles and is quiet. Where memory is
    /// refused, `outs` has gained some of the outputs from the front, and the state is a new one of
    /// the same budget. `copies` counts the cells that are copied, `turning` at most, and `turns`
    /// this turn.
    fn turn<C: Ledger, L: Ledger>(
        &mut self,
        outs: &mut Vec<Out>,
        copies: &mut Steps<C>,
        turns: &mut Steps<L>,
    ) -> Result<(), NoMemory>
        requires { (state self.old).quiet ≡ false }
        ensures done { OnOk result (state self.new
            ≡ ((reactor (state self.old).budget).turn (state self.old)).after) }
        ensures outputs { Appends result outs.old.items outs.new.items
            ((reactor (state self.old).budget).turn (state self.old)).outputs }
        ensures emptied { OnErr result (state self.new ≡ empty (state self.old).budget) }
        ensures budget { (state self.new).budget ≡ (state self.old).budget }
        ensures valid { IsState (state self.old).budget (state self.new) }
        ensures counted { turns.new ≡ turns.old + 1 }
        ensures copies { RisesBy (turning (state self.old)) copies.old copies.new };

    /// A turn with nothing to do, which settles, copies no cell.
    ghost settles: { (s : State) → next_work s ≡ None → turning s ≡ 0 };

    /// Neither does one without fuel, which stops.
    ghost stops: { (s : State) → s.fuel ≡ 0 → turning s ≡ 0 };

    /// Neither does one that drops its first task, whose page isn't live.
    ghost drops: { (s : State) (task : Task) (tasks : List Task) → s.tasks ≡ task ∷ tasks
        → is_live s.stores.windows task.page ≡ false → turning s ≡ 0 };
}
