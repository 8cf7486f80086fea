ghost use Rattle.std.specs.Prelude.{◌≡◌, ◌≤◌, ◌<◌, ◌+◌, ℕ, true, false, Option, Some, List, [], map};
ghost use Rattle.ff_confinement.specs.Runs.{plain};
ghost use Rattle.ff_confinement.specs.Turns.{machine_of};
ghost use Rattle.ff_tree.specs.declared.tree.Expr.{Expr};
ghost use Rattle.ff_value.specs.declared.ids.PageId.{PageId};
ghost use Rattle.ff_value.specs.declared.ids.WinId.{WinId};
ghost use Rattle.ff_value.specs.declared.input.Input.{Input};
ghost use Rattle.ff_value.specs.declared.reply.Resp.{Resp};
ghost use Rattle.ff_value.specs.declared.value.Code.{Code};
ghost use Rattle.ff_machine.specs.Windows.{is_open, is_live};
ghost use Rattle.ff_machine.specs.Stores.{Stores, take_ready};
ghost use Rattle.ff_machine.specs.State.{State, Task, nothing};
ghost use Rattle.ff_machine.specs.Inputs.{begin, fill_reply, call_reply};
ghost use Rattle.ff_machine.specs.Turns.{turn, work, gone};
ghost use Rattle.ff_machine.specs.Machine.{reactor};
ghost use Rattle.ff_machine.specs.References.{Grows, made};
ghost use Rattle.ff_machine.specs.Valid.{IsQuiet};
ghost use Rattle.ff_laws.specs.Later.{AreLater};

/// After an input there is no task, no fuel and no page that counts as changed, if that was so
/// before it.
pub fn an_input_ends_at_rest()
    ensures { (budget : ℕ) (s : State) (i : Input) → s.budget ≡ budget
        → (s.quiet ≡ true → IsQuiet s) → IsQuiet
        ((machine_of (reactor budget) (budget + 1)).handle s i).after }
{}

/// A task of a page that isn't live is dropped and changes nothing, no script of such a page is
/// taken out of its queue, none of its slots is filled, and none of its callbacks is called.
pub fn a_page_that_is_not_live_never_runs()
    ensures task { (s : Stores) (task : Task) → is_live s.windows task.page ≡ false
        → work s task ≡ gone s [] }
    ensures script { (s : Stores) (taken : (PageId × Expr) × Stores) → take_ready s ≡ Some taken
        → is_live s.windows taken.0.0 ≡ true }
    ensures slot { (s : State) (page : PageId) (slot : ℕ) (reply : Option Resp)
        → is_live s.stores.windows page ≡ false → fill_reply s page slot reply ≡ nothing s }
    ensures callback { (s : State) (page : PageId) (code : Code) (reply : Option Resp)
        → is_live s.stores.windows page ≡ false → call_reply s page code reply ≡ nothing s }
{}

/// Taking an input, a turn, and all that an input brings about leave stores that are later: what
/// was made keeps its number, a page its address, window, root and activation, and the mass doesn't
/// fall.
pub fn what_was_made_stays()
    ensures begin { (s : State) (i : Input) → AreLater s.stores (begin s i).after.stores }
    ensures turn { (s : State) → AreLater s.stores (turn s).after.stores }
    ensures handled { (budget most : ℕ) (s : State) (i : Input)
        → AreLater s.stores ((machine_of (reactor budget) most).handle s i).after.stores }
    ensures counts { (budget most : ℕ) (s : State) (i : Input)
        → Grows (made s.stores) (made ((machine_of (reactor budget) most).handle s
        i).after.stores) }
    ensures mass { (budget most : ℕ) (s : State) (i : Input)
        → s.stores.mass ≤ ((machine_of (reactor budget) most).handle s i).after.stores.mass }
{}

/// A window that is closed is never open again, and a page that isn't live is never live again.
pub fn nothing_that_has_gone_comes_back()
    ensures window { (budget most : ℕ) (s : State) (i : Input) (w : WinId)
        → w.0 < (made s.stores).wins → is_open s.stores.windows w ≡ false
        → is_open ((machine_of (reactor budget) most).handle s i).after.stores.windows w ≡ false }
    ensures page { (budget most : ℕ) (s : State) (i : Input) (p : PageId)
        → p.0 < (made s.stores).pages → is_live s.stores.windows p ≡ false
        → is_live ((machine_of (reactor budget) most).handle s i).after.stores.windows p ≡ false }
{}

/// Inputs of the same act are handled alike, whatever their tags, and runs over the same acts put
/// the same.
pub fn tags_change_nothing()
    ensures handled { (budget most : ℕ) (s : State) (i j : Input) → i.act ≡ j.act
        → (machine_of (reactor budget) most).handle s i
        ≡ (machine_of (reactor budget) most).handle s j }
    ensures run { (budget most : ℕ) (is js : List Input) → map (λ i. i.act) is ≡ map (λ i. i.act) js
        → plain (machine_of (reactor budget) most) is
        ≡ plain (machine_of (reactor budget) most) js }
{}
