ghost use Rattle.std.specs.Prelude.{◌≡◌, ◌≤◌, ◌+◌, ℕ, Bool, true, List, ⊤};
ghost use Rattle.ff_tree.specs.Weight.{capped};
ghost use Rattle.ff_value.specs.declared.fault.Fault.{Fault};
ghost use Rattle.ff_value.specs.declared.ids.PageId.{PageId};
ghost use Rattle.ff_value.specs.declared.input.Input.{Input};
ghost use Rattle.ff_value.specs.declared.value.Val.{Val};
ghost use Rattle.ff_confinement.specs.Turns.{IsFuelled, machine_of};
ghost use Rattle.ff_term.specs.Running.{Evaluation};
ghost use Rattle.ff_machine.specs.declared.reduced.Reduced.TheVariants as answer;
ghost use Rattle.ff_machine.specs.Stores.{Stores, may_weigh};
ghost use Rattle.ff_machine.specs.Reduction.{StaysAt, reduction};
ghost use Rattle.ff_machine.specs.State.{State, empty};
ghost use Rattle.ff_machine.specs.Machine.{reactor};
ghost use Rattle.ff_machine.specs.Valid.{IsState};

/// A new browser is valid, whatever fuel an input brings it.
pub fn a_new_browser_is_valid()
    ensures { (budget : ℕ) → IsState budget (empty budget) }
{}

/// A reduction that fails changes nothing and puts nothing, and a value is never reduced.
pub fn a_fault_changes_nothing()
    ensures fault { (s : Stores) (page : PageId) (t : Evaluation) (f : Fault)
        → (reduction s page t).answer ≡ answer.Failed f → StaysAt s t (reduction s page t) }
    ensures value { (s : Stores) (page : PageId) (t : Evaluation) (v : Val)
        → (reduction s page t).answer ≡ answer.Done v → StaysAt s t (reduction s page t) }
{}

/// The browser is quiet again at most one turn after the fuel is spent that an input brings, and
/// nothing changes what an input brings.
pub fn an_input_ends_within_its_fuel()
    ensures fuelled { (budget : ℕ) → IsFuelled (reactor budget) (λ s. s.fuel) budget (λ i. ⊤)
        (λ s. s.budget ≡ budget) }
    ensures quiet { (budget : ℕ) (s : State) (i : Input) → s.budget ≡ budget
        → ((machine_of (reactor budget) (budget + 1)).handle s i).after.quiet ≡ true }
    ensures budget { (budget : ℕ) (s : State) (i : Input) → s.budget ≡ budget
        → ((machine_of (reactor budget) (budget + 1)).handle s i).after.budget ≡ budget }
{}

/// A weight that is capped at the greatest number of 64 bits may be weighed where the weight itself
/// may, and is then that weight.
pub fn a_capped_weight_is_weighed_alike()
    ensures same { (s : Stores) (weight : ℕ) → may_weigh s (capped weight) ≡ may_weigh s weight }
    ensures whole { (s : Stores) (weight : ℕ) → may_weigh s weight ≡ true → capped weight ≡ weight }
{}
