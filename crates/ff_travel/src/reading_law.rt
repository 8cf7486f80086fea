ghost use Rattle.std.specs.Prelude.{◌≡◌, ℕ, Bool, Option, Some, Result, Ok, List};
ghost use Rattle.ff_lattice.specs.Order.{Order};
ghost use Rattle.ff_travel.specs.Commands.{IsCommandOf, ReadsCommand};
ghost use Rattle.ff_travel.specs.declared.command.Command.{Command};
ghost use Rattle.ff_travel.specs.declared.command.CommandFault.{CommandFault};
ghost use Rattle.ff_travel.specs.Giving.{Gives};
ghost use Rattle.ff_status.specs.declared.status.TraceFault.{TraceFault};
ghost use Rattle.ff_stream.specs.Traces.{IsTrace};
ghost use Rattle.ff_stream.specs.declared.end.BadLine.{BadLine};

/// A line is read, and in one way: its bytes determine the command, that there is none, or the
/// fault. A command that it gives names levels that there are, and arrives with a spelled input.
pub fn a_line_is_one_command()
    ensures some { (order : Order) (line : List ℕ) → (answer : Result (Option Command) CommandFault)
        × ReadsCommand order line answer }
    ensures spelled { (order : Order) (line : List ℕ) (command : Command)
        → ReadsCommand order line (Ok (Some command)) → IsCommandOf order command }
    ensures one { (order : Order) (line : List ℕ) (one other : Result (Option Command) CommandFault)
        → ReadsCommand order line one → ReadsCommand order line other → one ≡ other }
{}

/// A trace of commands is read, and in one way: the bytes, and whether they are all, determine the
/// commands before the first bad line, and that line with its fault.
#[tactic(auto, using(crate::proofs::Whole::commands_read, crate::proofs::Whole::commands_read_once))]
pub fn a_trace_of_commands_is_read_in_one_way()
    ensures some { (order : Order) (ended : Bool) (bytes : List ℕ) → (commands : List Command)
        × (bad : Option (BadLine TraceFault)) × IsTrace (Gives order) ended bytes commands bad }
    ensures one { (order : Order) (ended : Bool) (bytes : List ℕ) (one two : List Command)
        (bad other : Option (BadLine TraceFault)) → IsTrace (Gives order) ended bytes one bad
        → IsTrace (Gives order) ended bytes two other → (one ≡ two) × (bad ≡ other) }
{}
