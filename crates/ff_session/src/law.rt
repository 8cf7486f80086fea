ghost use Rattle.std.specs.Prelude.{◌≡◌, ◌<◌, ◌≤◌, ◌↔◌, ◌++◌, ◌∷◌, [], ℕ, Bool, true, Option, Some, None, List, All, length};
ghost use Rattle.ff_io.specs.declared.lines.TheConstants.{MOST_TRACE_BYTES};
ghost use Rattle.ff_io.specs.Pieces.{put_of};
ghost use Rattle.ff_io.specs.Port.{Told};
ghost use Rattle.ff_lattice.specs.Order.{size};
ghost use Rattle.ff_confinement.specs.Copies.{at_level, multi, seen};
ghost use Rattle.ff_confinement.specs.Runs.{joined, plain_from};
ghost use Rattle.ff_confinement.specs.Sharing.{work};
ghost use Rattle.ff_confinement.specs.Given.{IsSecureAsOffered};
ghost use Rattle.ff_confinement.specs.Laws.{IsNoninterfering, IsSecure};
ghost use Rattle.ff_confinement.specs.Text.{only, text_of, view};
ghost use Rattle.ff_confinement.specs.Standings.{Standing, Offering, fresh, run, work_of};
ghost use Rattle.ff_machine.specs.State.{State};
ghost use Rattle.ff_machine.specs.Valid.{IsState};
ghost use Rattle.ff_value.specs.Same.{same_input};
ghost use Rattle.ff_session.specs.Levels.{levels, machine};
ghost use Rattle.ff_session.specs.Parts.{later_by, newlines};
ghost use Rattle.ff_session.specs.Multi.{run_text, seen_by, stands_after};
ghost use Rattle.ff_trace.specs.Lines.{IsInputOf};
ghost use Rattle.ff_value.specs.declared.input.Input.{Input};
ghost use Rattle.ff_policy.specs.Assignment.{Assignment, IsAssignment};
ghost use Rattle.ff_status.specs.declared.status.TraceFault.{TraceFault};
ghost use Rattle.ff_stream.specs.declared.end.BadLine.{BadLine};
ghost use Rattle.ff_session.specs.Claims.{AreInputsGot, Claims, IsTraceFor};

/// A trace is read, and in one way: the bytes, and whether they are all, determine the inputs
/// before the first bad line, and that line with its fault.
pub fn a_trace_is_read_in_one_way()
    ensures some { (p : Assignment) (ended : Bool) (bytes : List ℕ) → (is : List Input)
        × (bad : Option (BadLine TraceFault)) × IsTraceFor p ended bytes is bad }
    ensures one { (p : Assignment) (ended : Bool) (bytes : List ℕ) (is js : List Input)
        (bad other : Option (BadLine TraceFault)) → IsTraceFor p ended bytes is bad
        → IsTraceFor p ended bytes js other → (is ≡ js) × (bad ≡ other) }
{}

/// A trace may be cut after any newline: where the first part ends with one and has no bad line,
/// the inputs of both parts, in order, are those of the whole, and a bad line of the second part is
/// one of the whole, as many lines later as the first part has.
pub fn parts_of_a_trace_are_the_whole_trace()
    ensures { (p : Assignment) (ended : Bool) (front second : List ℕ) (is js : List Input)
        (bad : Option (BadLine TraceFault))
        → length ((front ++ 10 ∷ []) ++ second) ≤ MOST_TRACE_BYTES
        → IsTraceFor p true (front ++ 10 ∷ []) is None → IsTraceFor p ended second js bad
        → IsTraceFor p ended ((front ++ 10 ∷ []) ++ second) (is ++ js)
        (later_by (newlines (front ++ 10 ∷ [])) bad) }
{}

/// A run over inputs is the run over the first of them, and then the run over the others from where
/// the copies then stand. From new copies on it is the multi-executed run, in as many turns.
pub fn a_run_goes_on_from_where_its_copies_stand()
    ensures onwards { (p : Assignment) (from : Standing State) (is js : List Input)
        → run (machine p) (levels p) (seen_by p) from (is ++ js)
        ≡ run (machine p) (levels p) (seen_by p) from is
        ++ run (machine p) (levels p) (seen_by p) (stands_after p from is) js }
    ensures multi { (p : Assignment) (is : List Input)
        → run (machine p) (levels p) (seen_by p) (fresh (machine p)) is
        ≡ multi (machine p) (levels p) is }
    ensures turns { (p : Assignment) (is : List Input)
        → work_of (machine p) (levels p) (seen_by p) (fresh (machine p)) same_input is
        ≡ work (machine p) (levels p) same_input is }
{}

/// Whatever the copies of the levels are offered of well spelled inputs, and wherever they stand:
/// the view of each level is the same on all inputs of which the levels at or below it are offered
/// the same.
pub fn a_view_depends_on_what_is_offered_at_or_below()
    ensures { (p : Assignment) (offers : Offering Input) (from : Standing State) → IsAssignment p
        → ((before : List Input) (l : ℕ) (i x : Input) → IsInputOf p.order i
        → offers before l i ≡ Some x → IsInputOf p.order x)
        → ((l : ℕ) → IsState p.fuel (from.states l))
        → (is : List Input) → All (IsInputOf p.order) is
        → IsSecureAsOffered (machine p) (levels p) offers from (IsInputOf p.order) is
        (run_text p offers from is) }
{}

/// Where copies stand anywhere and each is offered what its level sees: a level's own lines are
/// what the plain browser puts at it, from where the level's copy stood, on what the level sees
/// (`projected`); and inputs that look the same to a level give it the same view (`secure`).
pub fn a_run_from_anywhere_tells_a_level_what_it_sees()
    ensures projected { (p : Assignment) (from : Standing State) → IsAssignment p
        → ((l : ℕ) → IsState p.fuel (from.states l))
        → (l : ℕ) → l < size p.order → (is : List Input) → All (IsInputOf p.order) is
        → only (levels p) l (run_text p (seen_by p) from is)
        ≡ text_of (levels p) (at_level (levels p) l
        (joined (plain_from (machine p) (from.states l) (seen (levels p) l is)))) }
    ensures secure { (p : Assignment) (from : Standing State) → IsAssignment p
        → ((l : ℕ) → IsState p.fuel (from.states l))
        → (l : ℕ) → l < size p.order → (is : List Input) → All (IsInputOf p.order) is
        → (js : List Input) → All (IsInputOf p.order) js
        → seen (levels p) l js ≡ seen (levels p) l is
        → view (levels p) l (run_text p (seen_by p) from is)
        ≡ view (levels p) l (run_text p (seen_by p) from js) }
{}

/// The multi-executed run is noninterfering under every policy: any two lists of well spelled
/// inputs that look the same to a level give that level the same view, byte for byte. Nothing of
/// the kind holds of the plain run.
#[tactic(auto, using(crate::proofs::Lawful::multi_is_noninterfering))]
pub fn multi_is_noninterfering()
    ensures { (p : Assignment) → IsAssignment p
        → IsNoninterfering (machine p) (levels p) (IsInputOf p.order) }
{}

/// Levels are told apart by whether what they see is equal, tags too.
pub fn inputs_are_the_same_where_they_are_equal()
    ensures { (i j : Input) → (same_input i j ≡ true) ↔ (i ≡ j) }
{}

/// Two multi-executed runs under one policy, each over a port of its own, of which `secure` is
/// claimed: where the inputs that the one got look the same to a level as those that the other got,
/// what the two put gives that level the same view, byte for byte.
pub fn two_runs_that_look_alike_give_one_view()
    ensures { (p : Assignment) (begun ended again over : Told)
        → (one : Claims p begun ended (λ is put. IsSecure (machine p) (levels p) (IsInputOf p.order)
        is put))
        → (other : Claims p again over (λ is put. IsSecure (machine p) (levels p)
        (IsInputOf p.order) is put))
        → (l : ℕ) (is js : List Input) (bad worse : Option (BadLine TraceFault))
        → l < (levels p).count
        → AreInputsGot p one.pieces is bad → AreInputsGot p other.pieces js worse
        → seen (levels p) l is ≡ seen (levels p) l js
        → view (levels p) l (put_of one.pieces) ≡ view (levels p) l (put_of other.pieces) }
{}
