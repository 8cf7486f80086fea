//! What a run in parts tells.
ghost use Rattle.std.specs.Prelude.{◌≡◌, ◌+◌, ◌++◌, All, List};
ghost use Rattle.ff_lattice.specs.Order.{size};
ghost use Rattle.ff_machine.specs.State.{State};
ghost use Rattle.ff_policy.specs.Assignment.{Assignment, IsAssignment};
ghost use Rattle.ff_pool.specs.Pooled.{Pooled};
ghost use Rattle.ff_pool.specs.Restored.{IsResting};
ghost use Rattle.ff_confinement.specs.Copies.{multi};
ghost use Rattle.ff_confinement.specs.Standings.{Standing, StandAlike, fresh};
ghost use Rattle.ff_confinement.specs.Text.{text_out};
ghost use Rattle.ff_resume.specs.Resumed.{EndsAtRest, WasSaved, new_copies, stand_of, standing_text};
ghost use Rattle.ff_save.specs.Saved.{saved_recs, saved_text};
ghost use Rattle.ff_save.specs.Whole.{IsSaved, IsWhole};
ghost use Rattle.ff_session.specs.Levels.{levels, machine};
ghost use Rattle.ff_session.specs.Multi.{multi_text, multi_turns, run_text, run_turns, seen_by, stands_after};
ghost use Rattle.ff_trace.specs.Lines.{IsInputOf};
ghost use Rattle.ff_value.specs.declared.input.Input.{Input};

/// The text of a run over some inputs and then others is that of the run over the first ones and
/// then, from where the copies then stand, over the others, and so are its turns; in the end the
/// copies stand where they stand after the whole run, and so are saved as the same text. From new
/// copies on, it is the multi-executed run.
pub fn parts_of_a_run_are_the_whole_run()
    ensures text { (p : Assignment) (from : Standing State) (is js : List Input)
        → run_text p (seen_by p) from (is ++ js)
        ≡ run_text p (seen_by p) from is ++ run_text p (seen_by p) (stands_after p from is) js }
    ensures turns { (p : Assignment) (from : Standing State) (is js : List Input)
        → run_turns p (seen_by p) from (is ++ js)
        ≡ run_turns p (seen_by p) from is + run_turns p (seen_by p) (stands_after p from is) js }
    ensures saved { (p : Assignment) (from : Standing State) (is js : List Input)
        → standing_text p (stands_after p (stands_after p from is) js)
        ≡ standing_text p (stands_after p from (is ++ js)) }
    ensures multi { (p : Assignment) (is : List Input)
        → run_text p (seen_by p) (fresh (machine p)) is
        ≡ text_out (levels p) (multi (machine p) (levels p) is) }
    ensures stands { (p : Assignment) (from : Standing State) (is js : List Input)
        → StandAlike (size p.order) (stands_after p (stands_after p from is) js)
        (stands_after p from (is ++ js)) }
{}

/// Copies that stand where those of a pool at rest stand are saved as that pool is. So where the
/// pool is whole, the text is its saved text, and is read as this pool.
pub fn copies_are_saved_as_the_pool_that_stands_there()
    ensures text { (p : Assignment) (pool : Pooled) (at : Standing State)
        → IsResting (size p.order) p.fuel pool → StandAlike (size p.order) (stand_of pool) at
        → standing_text p at ≡ saved_text p (saved_recs pool) }
    ensures whole { (p : Assignment) (pool : Pooled) (at : Standing State) → IsWhole p pool
        → StandAlike (size p.order) (stand_of pool) at → IsSaved p (standing_text p at) pool }
{}

/// New copies are those of a pool at rest, and the run from where they stand is the multi-executed
/// one, in as many turns.
pub fn new_copies_are_at_rest()
    ensures rests { (p : Assignment) → IsResting (size p.order) p.fuel (new_copies p) }
    ensures text { (p : Assignment) (is : List Input)
        → run_text p (seen_by p) (stand_of (new_copies p)) is ≡ multi_text p is }
    ensures turns { (p : Assignment) (is : List Input)
        → run_turns p (seen_by p) (stand_of (new_copies p)) is ≡ multi_turns p is }
{}

/// A run over inputs that lines may give, from where the copies of a pool at rest stand, ends where
/// those of a pool at rest stand.
pub fn a_run_ends_at_rest()
    ensures { (p : Assignment) (from : Pooled) (is : List Input)
        → IsResting (size p.order) p.fuel from → All (IsInputOf p.order) is → EndsAtRest p from is }
{}

/// The pool that is read from what a run over some inputs was saved as goes on over others as the
/// unbroken run does: the text before the save and the text after it, joined, are that run's, in as
/// many turns as from where the first inputs have brought the copies, and in the end it is saved as
/// the same text.
pub fn what_was_saved_goes_on()
    ensures text { (p : Assignment) (from : Pooled) (is js : List Input) (read : Pooled)
        → IsAssignment p → WasSaved p from is read
        → run_text p (seen_by p) (stand_of from) (is ++ js)
        ≡ run_text p (seen_by p) (stand_of from) is ++ run_text p (seen_by p) (stand_of read) js }
    ensures turns { (p : Assignment) (from : Pooled) (is js : List Input) (read : Pooled)
        → IsAssignment p → WasSaved p from is read
        → run_turns p (seen_by p) (stand_of read) js
        ≡ run_turns p (seen_by p) (stands_after p (stand_of from) is) js }
    ensures saved { (p : Assignment) (from : Pooled) (is js : List Input) (read : Pooled)
        → IsAssignment p → WasSaved p from is read
        → standing_text p (stands_after p (stand_of read) js)
        ≡ standing_text p (stands_after p (stand_of from) (is ++ js)) }
{}

/// Copies that stand alike are saved as the same text.
pub fn equal_standings_are_saved_as_the_same()
    ensures { (p : Assignment) (a b : Standing State) → StandAlike (size p.order) a b
        → standing_text p a ≡ standing_text p b }
{}
