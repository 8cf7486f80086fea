ghost use Rattle.std.specs.Prelude.{◌≡◌};
ghost use Rattle.ff_value.specs.Faults.{word_of};

/// Why a reduction of a script failed.
#[derive(Clone, Copy, Debug, PartialEq, Eq)]
pub enum Fault {
    /// An operand, a test or a function of the wrong kind.
    Kind,
    /// A variable that is declared nowhere.
    Name,
    /// A number or a text outside what the operator takes.
    Range,
    /// A result that does not fit into 64 bits.
    Overflow,
    /// A full store, or a text that is too long.
    Limit,
    /// Too many calls inside one another.
    Depth,
    /// A window that is closed.
    Dead,
}

impl Fault {
    /// The fault's word in an output line.
    pub fn word(self) -> &'static str
        ensures { result.now ≡ word_of self }
    {
        match self {
            Fault::Kind => "kind",
            Fault::Name => "name",
            Fault::Range => "range",
            Fault::Overflow => "overflow",
            Fault::Limit => "limit",
            Fault::Depth => "depth",
            Fault::Dead => "dead",
        }
    }
}
