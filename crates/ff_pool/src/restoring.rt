//! The heads and the outputs of a pool at rest.
ghost use Rattle.std.specs.Prelude.{◌≡◌, ◌≤◌, [], All, IfOk, length, map};
ghost use Rattle.ff_reactor.specs.declared.reactor.TheConstants.{MOST_BUDGET};
ghost use Rattle.ff_pool.specs.Classes.{tops};
ghost use Rattle.ff_pool.specs.Restored.{IsReady, HaveBrowsers};
ghost use Rattle.ff_confinement.specs.Worlds.{each};

use crate::group::Group;
use crate::outs::Outs;
use ff_reactor::{NoMemory, Reactor};
use ff_shared::OwnedList;
use std::alloc::Global;

/// Browsers, one for each class.
pub type Browsers<B> = OwnedList<B>;

/// The heads of the levels: those that lead get these browsers in their order, and the others new
/// ones.
pub(crate) fn led_heads<B: Reactor>(
    alloc: Global,
    fuel: u32,
    leaders: &[usize],
    browsers: Browsers<B>,
) -> Result<Vec<Group<B>>, NoMemory>
    requires fuel_some { 1 ≤ fuel }
    requires fuel_most { fuel ≤ MOST_BUDGET }
    requires ready { All (λ browser. IsReady fuel (B.state browser)) browsers }
    requires count { length (tops leaders.now) ≡ length browsers }
    ensures { IfOk result (λ heads. HaveBrowsers fuel leaders.now (map B.state browsers)
        heads.items) }
{
    let mut browsers = browsers.into_vec();
    let mut heads = Vec::new(alloc);
    for l in 0..leaders.len() {
        if leaders[l] == l {
            heads.push(Group::of(alloc, browsers.remove(0)))?;
        } else {
            heads.push(Group::new(alloc, fuel))?;
        }
    }
    Ok(heads)
}

/// No outputs of any level.
#[tactic(auto, using(crate::proofs::Making::made_more))]
pub(crate) fn no_outs(alloc: Global, n: u8) -> Result<Vec<Outs>, NoMemory>
    ensures { IfOk result (λ puts. puts.items ≡ each (λ l. []) n) }
{
    let mut puts = Vec::new(alloc);
    for _level in 0..n {
        puts.push(Outs::new(alloc))?;
    }
    Ok(puts)
}
