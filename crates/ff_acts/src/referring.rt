//! What is asked of the values of all variables, for stores that are made of parts.
ghost use Rattle.std.specs.Prelude.{◌↔◌, All, IsTrue};
ghost use Rattle.ff_machine.specs.References.{ActRefers, ValRefers};
ghost use Rattle.ff_machine.specs.Windows as windows;
ghost use Rattle.ff_value.specs.declared.ids.ActId.{ActId};
ghost use Rattle.ff_records.specs.Counted.{made};

use crate::acts::Acts;
use crate::cells::{VarCell, cell_at};
use ff_cow::CowVec;
use ff_records::{Made, value_refers};

impl Acts {
    /// Whether what the values of variables refer to was made, by these counts.
    pub fn refer(&self, counts: Made) -> bool
        ensures { IsTrue result ↔ ((a : ActId)
            → ActRefers (made counts) (windows.act_at self.now a)) }
    {
        vars_refer(counts, &self.vars)
    }
}

fn vars_refer(counts: Made, vars: &CowVec<VarCell>) -> bool
    ensures { IsTrue result ↔ All (λ cell. ValRefers (made counts) cell.value) vars.now }
{
    for i in 0..vars.len() {
        if !value_refers(counts, cell_at(vars, i).value()) {
            return false;
        }
    }
    true
}
