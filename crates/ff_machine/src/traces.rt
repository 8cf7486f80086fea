ghost use Rattle.std.specs.Prelude.{◌≡◌, ℕ, ◌≤◌};
ghost use Rattle.ff_confinement.specs.Runs.{plain};
ghost use Rattle.ff_machine.specs.Machine.{browser};
ghost use Rattle.ff_machine.specs.Traces.{page_load, leak, without_typing, fault_in_script, waiting_slot, queue_left};

/// A page load: the reply to a window's request loads its page, once.
pub fn a_page_is_loaded_once()
    ensures { (fuel : ℕ) → plain (browser fuel) page_load.inputs ≡ page_load.outputs }
{}

/// A script that fails ends with its error, and the next script runs.
pub fn a_fault_ends_its_script_alone()
    ensures { (fuel : ℕ) → 8 ≤ fuel → plain (browser fuel) fault_in_script.inputs
        ≡ fault_in_script.outputs }
{}

/// A script that hasn't come holds back the next one.
pub fn a_slot_holds_back_the_next_script()
    ensures { (fuel : ℕ) → 12 ≤ fuel → plain (browser fuel) waiting_slot.inputs
        ≡ waiting_slot.outputs }
{}

/// With one fuel for each input a script is stopped, and the next one waits for the next input.
pub fn a_queue_waits_for_fuel()
    ensures { plain (browser 1) queue_left.inputs ≡ queue_left.outputs }
{}

/// The leak: alone, the machine sends what the user typed. A copy that doesn't see the typing sends
/// an empty text in its place.
pub fn the_plain_machine_leaks()
    ensures typed { (fuel : ℕ) → 9 ≤ fuel → plain (browser fuel) leak.inputs ≡ leak.outputs }
    ensures unseen { (fuel : ℕ) → 9 ≤ fuel → plain (browser fuel) without_typing.inputs
        ≡ without_typing.outputs }
{}
