//! What two runs with `resume` put, and what is put before each read.
ghost use Rattle.std.specs.Prelude.{◌≡◌, ◌≢◌, ◌+◌, ◌++◌, ℕ, true, false, Some, All, List};
ghost use Rattle.ff_io.specs.Shelf.{Files, ShelfTold};
ghost use Rattle.ff_value.specs.declared.input.Input.{Input};
ghost use Rattle.ff_lattice.specs.Order.{size};
ghost use Rattle.ff_policy.specs.Assignment.{Assignment, IsAssignment};
ghost use Rattle.ff_pool.specs.Pooled.{Pooled};
ghost use Rattle.ff_confinement.specs.Standings.{StandAlike};
ghost use Rattle.ff_release.specs.Releasing.{release_duty};
ghost use Rattle.ff_route.specs.declared.rule.Rule.{Rule};
ghost use Rattle.ff_resume.specs.Resumed.{resume_duty, stand_of, standing_text};
ghost use Rattle.ff_save.specs.Whole.{IsWhole};
ghost use Rattle.ff_session.specs.Multi.{run_text, run_turns, seen_by, stands_after};
ghost use Rattle.ff_session.specs.Works.{multi_duty, plain_duty, format_duty};
ghost use Rattle.ff_stream.specs.Owed.{text_of};
ghost use Rattle.ff_travel.specs.Owed.{travel_duty};
ghost use Rattle.ff_travel.specs.declared.command.Command.{Command};
ghost use Rattle.ff_trace.specs.Lines.{IsInputOf};
ghost use Rattle.ff_run.specs.Words.{dash};
ghost use Rattle.ff_run.specs.InARow.{AreInARow};
ghost use Rattle.ff_run.specs.States.{NamesState};

/// Two runs with `resume` in a row are the unbroken one, where the second begins with the file in
/// which the saved text of the first was kept. What the unbroken run puts, its saved text included,
/// is what the first put before its saved text, and then all that the second puts; its turns are
/// those of both.
pub fn two_runs_in_a_row_are_the_unbroken_one()
    ensures text { (p : Assignment) (before now : ShelfTold) (name file : List ℕ)
        (from read : Pooled) (is js : List Input) → IsAssignment p
        → AreInARow p before name from is now file read
        → (resume_duty p (stand_of from)).text true (is ++ js)
        ≡ run_text p (seen_by p) (stand_of from) is
        ++ (resume_duty p (stand_of read)).text true js }
    ensures turns { (p : Assignment) (before now : ShelfTold) (name file : List ℕ)
        (from read : Pooled) (is js : List Input) → IsAssignment p
        → AreInARow p before name from is now file read
        → run_turns p (seen_by p) (stand_of from) (is ++ js)
        ≡ run_turns p (seen_by p) (stand_of from) is + run_turns p (seen_by p) (stand_of read) js }
{}

/// Where the pool is whole that stands where a first run ends, the file in which the saved text of
/// that run was kept is one from which a second run goes on: it holds this pool.
pub fn a_whole_state_goes_on()
    ensures { (p : Assignment) (before now : ShelfTold) (name file : List ℕ) (from there : Pooled)
        (is : List Input) (files : Files) → NamesState p before name from
        → All (IsInputOf p.order) is
        → IsWhole p there → StandAlike (size p.order) (stand_of there)
        (stands_after p (stand_of from) is)
        → now.files ≡ Some files → files file
        ≡ Some (standing_text p (stands_after p (stand_of from) is)) → file ≢ dash
        → AreInARow p before name from is now file there }
{}

/// What each command puts line by line, joined, is the text that it owes for all of the lines where
/// its trace goes on. So the promptness of `run` says that before each read the command's own text
/// for the lines got had been put. (An audit owes nothing until reading has ended.)
pub fn what_is_put_line_by_line_is_the_whole_text()
    ensures multi { (p : Assignment) (is : List Input)
        → text_of (multi_duty p).entry is ≡ (multi_duty p).text false is }
    ensures plain { (p : Assignment) (is : List Input)
        → text_of (plain_duty p).entry is ≡ (plain_duty p).text false is }
    ensures format { (p : Assignment) (is : List Input)
        → text_of (format_duty p).entry is ≡ (format_duty p).text false is }
    ensures travel { (p : Assignment) (commands : List Command)
        → text_of (travel_duty p).entry commands ≡ (travel_duty p).text false commands }
    ensures resume { (p : Assignment) (from : Pooled) (is : List Input)
        → text_of (resume_duty p (stand_of from)).entry is
        ≡ (resume_duty p (stand_of from)).text false is }
    ensures release { (p : Assignment) (rules : List Rule) (is : List Input)
        → text_of (release_duty p rules).entry is ≡ (release_duty p rules).text false is }
{}
