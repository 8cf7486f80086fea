//! The outputs of one level that nobody took.
ghost use Rattle.std.specs.Prelude.{◌≡◌, ◌++◌, [], IfOk, OnOk};

use ff_name::NoMemory;
use ff_value::Out;
use std::alloc::Global;
use std::marker::Model;
use std::mem;

/// A list of outputs.
pub(crate) struct Outs {
    alloc: Global,
    items: Vec<Out>,
}

// Written out, so that the proof of a caller sees one call and not a part for each field.
impl Drop for Outs {
    fn drop(self) {
        let Outs {
            alloc: _,
            items: _items,
        } = self;
    }
}

impl Model for Outs {
    ghost use Rattle.std.specs.Prelude.{List};
    ghost use Rattle.std.specs.Coded.{coded_list};
    ghost use Rattle.ff_value.specs.declared.output.Out.{Out};
    ghost use Rattle.ff_value.specs.contracts.output.Out.{the_row};

    ghost Value = { List Out };

    ghost coded = { coded_list the_row.coded };

    ghost view = { λ o. o.items.items };
}

impl Outs {
    /// No outputs.
    pub(crate) fn new(alloc: Global) -> Outs
        ensures { result ≡ [] }
    {
        Outs {
            alloc,
            items: Vec::new(alloc),
        }
    }

    /// Puts these outputs behind the others. Its one refusal is want of memory, after which nothing
    /// is said of them.
    pub(crate) fn append(&mut self, more: &[Out]) -> Result<(), NoMemory>
        ensures { OnOk result (self.new ≡ self.old ++ more.now) }
    {
        for out in more {
            self.items.push(out.copy()?)?;
        }
        Ok(())
    }

    /// The outputs, which are then gone.
    pub(crate) fn take(&mut self) -> Vec<Out>
        ensures outputs { result.items ≡ self.old }
        ensures done { self.new ≡ [] }
    {
        mem::replace(&mut self.items, Vec::new(self.alloc))
    }

    /// The same outputs once more.
    pub(crate) fn fork(&self) -> Result<Outs, NoMemory>
        ensures { IfOk result (λ outs. outs ≡ self.now) }
    {
        let mut outs = Outs::new(self.alloc);
        outs.append(self.items.as_slice())?;
        Ok(outs)
    }
}
