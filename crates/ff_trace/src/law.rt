ghost use Rattle.std.specs.Prelude.{◌≡◌, ◌↔◌, ◌<◌, ◌^◌, ℕ, List, Option, Some, Result, Ok, Err};
ghost use Rattle.std.specs.List.Sorted.{IsPermutation, IsSortedBy, IsStableBy};
ghost use Rattle.ff_lattice.specs.Order.{Order};
ghost use Rattle.ff_name.specs.Address.{Spells};
ghost use Rattle.ff_name.specs.Spelling.{IsDomain};
ghost use Rattle.ff_name.specs.declared.urls.Url.{Url};
ghost use Rattle.ff_number.specs.Decimal.{nat_text};
ghost use Rattle.ff_name.specs.Reading.{read_url};
ghost use Rattle.ff_value.specs.declared.input.Input.{Input};
ghost use Rattle.ff_value.specs.declared.output.Pair.{Pair};
ghost use Rattle.ff_trace.specs.declared.fault.LineFault.{LineFault};
ghost use Rattle.ff_trace.specs.Faults.{IsLineFault};
ghost use Rattle.ff_trace.specs.Lines.{ReadsLine, IsInputOf};
ghost use Rattle.ff_trace.specs.Parts.{domain_of, number_of};
ghost use Rattle.ff_trace.specs.Printed.{in_key_order, key_below};

/// A line is read, and in one way: its bytes determine the input, that there is none, or the fault.
/// An input that it gives is spelled, and its tag names a level.
pub fn a_line_is_read_in_one_way()
    ensures some { (order : Order) (line : List ℕ) → (answer : Result (Option Input) LineFault)
        × ReadsLine order line answer }
    ensures spelled { (order : Order) (line : List ℕ) (input : Input)
        → ReadsLine order line (Ok (Some input)) → IsInputOf order input }
    ensures one { (order : Order) (line : List ℕ) (one other : Result (Option Input) LineFault)
        → ReadsLine order line one → ReadsLine order line other → one ≡ other }
{}

/// A line is refused exactly for its first fault.
#[tactic(auto, using(crate::proofs::LineFaults::line_fault, crate::proofs::LineFaults::fault_line))]
pub fn the_first_fault_of_a_line_decides()
    ensures found { (order : Order) (line : List ℕ) (which : LineFault)
        → ReadsLine order line (Err which) → IsLineFault order line which }
    ensures exact { (order : Order) (line : List ℕ) (which : LineFault)
        → IsLineFault order line which → ReadsLine order line (Err which) }
{}

/// A part is a number, an address or a domain exactly where it is spelled as one.
pub fn what_is_spelled_is_a_part()
    ensures numbers { (text : List ℕ) (n : ℕ) → (number_of text ≡ Some n)
        ↔ ((n < 2 ^ 32) × (text ≡ nat_text n)) }
    ensures addresses { (text : List ℕ) (url : Url) → (read_url text ≡ Some url) ↔ Spells text url }
    ensures domains { (text domain : List ℕ) → (domain_of text ≡ Some domain)
        ↔ (IsDomain text × (domain ≡ text)) }
{}

/// The pairs that are printed are those that were given, each as often, in byte order of their
/// keys. Those with the same key stay in the order that they had, and so do pairs that were in
/// order.
pub fn pairs_are_put_in_order()
    ensures same { (pairs : List Pair) → IsPermutation pairs (in_key_order pairs) }
    ensures ordered { (pairs : List Pair) → IsSortedBy key_below (in_key_order pairs) }
    ensures stable { (pairs : List Pair) → IsStableBy key_below pairs (in_key_order pairs) }
    ensures kept { (pairs : List Pair) → IsSortedBy key_below pairs → in_key_order pairs ≡ pairs }
{}
