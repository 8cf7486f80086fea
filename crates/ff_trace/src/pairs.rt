ghost use Rattle.std.specs.Prelude.{◌≡◌, IfOk};
ghost use Rattle.ff_trace.specs.Printed as printed;

use crate::NoMemory;
use ff_value::{Pair, Pairs};
use std::alloc::Global;

/// The pairs in byte order of their keys. Those with the same key stay in the order that they had.
pub(crate) fn in_key_order(alloc: Global, pairs: &[Pair]) -> Result<Pairs, NoMemory>
    ensures { IfOk result (λ ordered. ordered ≡ printed.in_key_order pairs.now) }
{
    let mut ordered = copied(alloc, pairs)?;
    ordered.sort_by(|p, q| p.key.cmp(&q.key))?;
    Pairs::from_vec(alloc, ordered)
}

fn copied(alloc: Global, pairs: &[Pair]) -> Result<Vec<Pair>, NoMemory>
    ensures { IfOk result (λ copies. copies.items ≡ pairs.now) }
{
    let mut copies = Vec::new(alloc);
    for pair in pairs {
        copies.push(pair.copy()?)?;
    }
    Ok(copies)
}
