ghost use Rattle.std.specs.Prelude.{◌≡◌};
ghost use Rattle.ff_policy.specs.Assignment.{Assignment};
ghost use Rattle.ff_session.specs.Giving.{Gives};
ghost use Rattle.ff_session.specs.Works.{Exchanged, format_duty};

use crate::NoMemory;
use crate::ending::status_of;
use crate::input_reader::InputReader;
use ff_contract::Steps;
use ff_io::Port;
use ff_lattice::Lattice;
use ff_status::Status;
use ff_stream::{Taker, stream};
use ff_trace::print_input;
use ff_value::Input;
use std::alloc::Global;
use std::sync::ledger::Ledger;

/// Each input is written in its canonical form.
#[derive(Clone, Copy)]
pub struct Formatting<'a> {
    /// It has the names of the levels that tags name.
    pub lattice: &'a Lattice,
}

impl Taker for Formatting<'_> {
    ghost use Rattle.std.specs.Prelude.{⊤, false};
    ghost use Rattle.ff_trace.specs.Lines.{IsInputOf};
    ghost use Rattle.ff_session.specs.Formatting.{format_entry, no_turns};

    type Item = Input;

    type State = ();

    ghost accepts = { λ taker input. IsInputOf taker.lattice.now input };

    ghost entry = { λ taker start. format_entry taker.lattice.now };

    ghost turns_due = { λ taker start. no_turns };

    ghost is_at = { λ taker start state inputs. ⊤ };

    ghost copies_none = { λ taker. ⊤ };

    #[tactic(auto, using(crate::proofs::Texts::formatted))]
    fn take<C: Ledger, L: Ledger>(
        &self,
        _alloc: Global,
        _state: &mut (),
        item: &Input,
        text: &mut Vec<u8>,
        _copies: &mut Steps<C>,
        _turns: &mut Steps<L>,
    ) -> Result<(), NoMemory> {
        print_input(item, self.lattice, text)
    }
}

/// Writes each input of the trace that the port gives in its canonical form, line by line: before
/// the port is read again, the whole text of the lines that were got is written.
#[tactic(auto, using(crate::proofs::Giving::is_given))]
pub fn walk_format<P: Port, C: Ledger, L: Ledger>(
    alloc: Global,
    lattice: &Lattice,
    port: &mut P,
    copies: &mut Steps<C>,
    turns: &mut Steps<L>,
) -> Status
    ensures exchanged { (p : Assignment) → lattice.now ≡ p.order
        → Exchanged (Gives p.order) (format_duty p) (P.told port.old) (P.told port.new)
        turns.old turns.new result }
    ensures uncopied { copies.new ≡ copies.old }
{
    let reader = InputReader { lattice };
    let end = stream(
        alloc,
        &reader,
        &Formatting { lattice },
        &mut (),
        port,
        copies,
        turns,
    );
    status_of(end, Status::Done)
}
