ghost use Rattle.std.specs.Prelude.{◌≡◌, ℕ, false, List, All};
ghost use Rattle.ff_confinement.specs.Runs.{plain};
ghost use Rattle.ff_confinement.specs.Turns.{KeepsOk, machine_of};
ghost use Rattle.ff_tree.specs.declared.op.Op.{Op};
ghost use Rattle.ff_value.specs.Spelled.{IsWellSpelledInput};
ghost use Rattle.ff_value.specs.declared.ids.PageId.{PageId};
ghost use Rattle.ff_value.specs.declared.input.Input.{Input};
ghost use Rattle.ff_value.specs.declared.value.Val.{Val};
ghost use Rattle.ff_term.specs.Running.{Evaluation, is_value};
ghost use Rattle.ff_machine.specs.Stores.{Stores};
ghost use Rattle.ff_machine.specs.Operators.{operate};
ghost use Rattle.ff_machine.specs.Reduction.{Red};
ghost use Rattle.ff_machine.specs.State.{State};
ghost use Rattle.ff_machine.specs.Inputs.{begin};
ghost use Rattle.ff_machine.specs.Turns.{turn};
ghost use Rattle.ff_machine.specs.Machine.{reactor, browser};
ghost use Rattle.ff_machine.specs.References.{made};
ghost use Rattle.ff_machine.specs.Valid.{IsVal, IsRunning, IsStores, IsTask, IsState};
ghost use Rattle.ff_laws.specs.Puts.{IsOut, AreOuts, OutsUnlessFault, OutsIfMoved};

/// From valid stores each output is well spelled, with the cookies of a request in byte order of
/// their keys: what taking a well spelled input puts, a turn whose tasks are valid, an operator
/// with valid operands, and one reduction of a valid evaluation.
pub fn what_is_put_is_well_spelled()
    ensures begin { (s : State) (i : Input) → IsStores s.stores → IsWellSpelledInput i
        → AreOuts (begin s i).outputs }
    ensures turn { (s : State) → IsStores s.stores → All (IsTask s.stores) s.tasks
        → AreOuts (turn s).outputs }
    ensures operator { (s : Stores) (page : PageId) → IsStores s → (op : Op) (args : List Val)
        → All (IsVal (made s)) args → OutsUnlessFault (operate s page op args) }
    ensures reduction { (s : Stores) (page : PageId) (t : Evaluation) → IsStores s
        → IsRunning (made s) t.expr → is_value t.expr ≡ false → OutsIfMoved (Red s page t) }
{}

/// From valid states and well spelled inputs the browser puts such outputs alone: at each step, in
/// all that an input brings about, however many turns that may take, and in a whole run.
pub fn what_a_run_puts_is_well_spelled()
    ensures reactor { (budget : ℕ) → KeepsOk (reactor budget) IsWellSpelledInput (IsState budget)
        IsOut }
    ensures handled { (budget most : ℕ) (s : State) (i : Input) → IsState budget s
        → IsWellSpelledInput i → AreOuts ((machine_of (reactor budget) most).handle s i).outputs }
    ensures run { (budget : ℕ) (is : List Input) → All IsWellSpelledInput is
        → All AreOuts (plain (browser budget) is) }
{}
