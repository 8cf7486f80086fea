//! The outputs of one level, which lie beside the pool.
ghost use Rattle.std.specs.Prelude.{◌≡◌, ◌++◌, [], length, take, OnOk};

use ff_pool::NoMemory;
use ff_value::Out;
use std::alloc::Global;
use std::marker::Model;

/// A list of outputs.
#[derive(Drop)]
pub(crate) struct Outputs {
    items: Vec<Out>,
}

impl Model for Outputs {
    ghost use Rattle.std.specs.Prelude.{List};
    ghost use Rattle.std.specs.Coded.{coded_list};
    ghost use Rattle.ff_value.specs.declared.output.Out.{Out};
    ghost use Rattle.ff_value.specs.contracts.output.Out.{the_row};

    ghost Value = { List Out };

    ghost coded = { coded_list the_row.coded };

    ghost view = { λ o. o.items.items };
}

impl Outputs {
    /// No outputs.
    pub(crate) fn new(alloc: Global) -> Outputs
        ensures { result ≡ [] }
    {
        Outputs {
            items: Vec::new(alloc),
        }
    }

    /// How many there are.
    pub(crate) fn len(&self) -> usize
        ensures { result ≡ length self.now }
    {
        self.items.len()
    }

    /// The outputs, in order.
    pub(crate) fn as_slice(&self) -> &[Out]
        ensures { result.now ≡ self.now }
    {
        self.items.as_slice()
    }

    /// Puts these outputs behind the others.
    pub(crate) fn append(&mut self, mut more: Vec<Out>) -> Result<(), NoMemory>
        ensures { OnOk result (self.new ≡ self.old ++ more.items) }
    {
        self.items.append(&mut more)
    }

    /// The first outputs stay, so many.
    pub(crate) fn cut(&mut self, count: usize)
        ensures { self.new ≡ take count self.old }
    {
        self.items.truncate(count);
    }
}
