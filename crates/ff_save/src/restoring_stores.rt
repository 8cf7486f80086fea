//! The stores of one browser, made of all their records.
ghost use Rattle.std.specs.Prelude.{◌≤◌, IfOk};
ghost use Rattle.ff_records.specs.Restored.{Restores};
ghost use Rattle.ff_saved_rows.specs.Drafted.{recs_of};
ghost use Rattle.ff_saved_rows.specs.Recs.{stores_recs};
ghost use Rattle.ff_stores.specs.Restored.{AreUntouched};

use ff_contract::Steps;
use ff_name::NoMemory;
use ff_net::{Jar, Requests};
use ff_nodes::Nodes;
use ff_saved_rows::Drafted;
use ff_stores::Stores;
use ff_windows::Windows;
use std::alloc::Global;
use std::sync::ledger::Ledger;

/// The valid stores that have these records, with no page touched. `None` exactly where no valid
/// stores have them.
pub fn restore_stores<C: Ledger>(
    alloc: Global,
    recs: &Drafted,
    copies: &mut Steps<C>,
) -> Result<Option<Stores>, NoMemory>
    ensures value { IfOk result (Restores AreUntouched stores_recs (recs_of recs.now)) }
    ensures later { copies.old ≤ copies.new }
{
    let Some(nodes) = Nodes::restore(alloc, &recs.nodes, copies)? else {
        return Ok(None);
    };
    let Some(windows) = Windows::restore(
        alloc,
        &recs.acts,
        &recs.pages,
        &recs.wins,
        &recs.opened,
        copies,
    )?
    else {
        return Ok(None);
    };
    let Some(jar) = Jar::restore(alloc, &recs.cookies, copies)? else {
        return Ok(None);
    };
    let Some(requests) = Requests::restore(alloc, &recs.asks, copies)? else {
        return Ok(None);
    };
    Stores::restore(alloc, nodes, windows, jar, requests, recs.mass)
}
