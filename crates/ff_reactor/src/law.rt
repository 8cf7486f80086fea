ghost use Rattle.std.specs.Prelude.{◌≡◌, ◌≤◌, ◌+◌, ℕ, true};
ghost use Rattle.ff_value.specs.Spelled.{IsWellSpelledInput};
ghost use Rattle.ff_value.specs.declared.input.Input.{Input};
ghost use Rattle.ff_machine.specs.State.{State};
ghost use Rattle.ff_machine.specs.Machine.{browser};
ghost use Rattle.ff_machine.specs.Valid.{IsState};

/// An input is handled in at most one turn more than it brings fuel (`turns`), and the browser is
/// then quiet and valid (`quiet`, `valid`).
pub fn an_input_takes_few_turns()
    ensures turns { (budget : ℕ) (s : State) (i : Input)
        → ((browser budget).handle s i).turns ≤ budget + 1 }
    ensures quiet { (budget : ℕ) (s : State) (i : Input) → IsState budget s → IsWellSpelledInput i
        → ((browser budget).handle s i).after.quiet ≡ true }
    ensures valid { (budget : ℕ) (s : State) (i : Input) → IsState budget s → IsWellSpelledInput i
        → IsState budget ((browser budget).handle s i).after }
{}
