//! Single steps of a pool beside which its outputs lie.
ghost use Rattle.std.specs.Prelude.{◌≡◌, ◌++◌, ◌∷◌, [], false, length, map, OnOk, IfOk};
ghost use Rattle.ff_policy.specs.Assignment.{Assignment};
ghost use Rattle.ff_pool.specs.Pooled as pooled;
ghost use Rattle.ff_trace.specs.Lines.{IsInputOf};
ghost use Rattle.ff_travel.specs.Beside.{ArePartsFor, HasGathered, IsPoolFor, cut, history_of, kept_now, none_put};
ghost use Rattle.ff_travel.specs.Travelled.{taken_back};
ghost use Rattle.ff_route.specs.Route.{offers as offers_for};

use crate::kept::Kept;
use crate::outputs::Outputs;
use ff_contract::Steps;
use ff_policy::Policy;
use ff_pool::{NoMemory, Pool, Reactor};
use ff_route::offers;
use ff_value::{Input, Level};
use std::alloc::Global;
use std::sync::ledger::Ledger;

/// A list for each of so many levels, with no outputs.
pub(crate) fn no_outputs(alloc: Global, levels: u8) -> Result<Vec<Outputs>, NoMemory>
    ensures { IfOk result (λ puts. puts.items ≡ none_put levels) }
{
    let mut puts = Vec::new(alloc);
    for _level in 0..levels {
        puts.push(Outputs::new(alloc))?;
    }
    Ok(puts)
}

/// Keeps a fork of the pool, and how many outputs of each level lie beside it.
pub(crate) fn keep<B: Reactor, C: Ledger>(
    alloc: Global,
    kept: &mut Vec<Kept<B>>,
    puts: &[Outputs],
    pool: &Pool<B>,
    copies: &mut Steps<C>,
) -> Result<(), NoMemory>
    ensures done { OnOk result (kept.new.items
        ≡ kept.old.items ++ kept_now puts.now pool.now ∷ []) }
    ensures copies { copies.new ≡ copies.old }
{
    let fork = pool.fork(copies)?;
    kept.push(Kept::of(fork, counts_of(alloc, puts)?))?;
    Ok(())
}

/// How many outputs of each level there are.
fn counts_of(alloc: Global, puts: &[Outputs]) -> Result<Vec<usize>, NoMemory>
    ensures { IfOk result (λ counts. counts.items ≡ map length puts.now) }
{
    let mut counts = Vec::new(alloc);
    for outputs in puts {
        counts.push(outputs.len())?;
    }
    Ok(counts)
}

/// What the levels see of an input comes to them.
pub(crate) fn arrive<B: Reactor, C: Ledger>(
    alloc: Global,
    policy: &Policy,
    input: &Input,
    pool: &mut Pool<B>,
    copies: &mut Steps<C>,
) -> Result<(), NoMemory>
    requires pool { IsPoolFor policy.now pool.old }
    requires input { IsInputOf policy.now.order input.now }
    ensures done { OnOk result (pool.new ≡ pooled.arrived pool.old
        (offers_for policy.now input.now)) }
    ensures levels { pooled.size pool.new ≡ pooled.size pool.old }
    ensures copies { copies.new ≡ copies.old }
{
    let seen = offers(alloc, policy, input)?;
    pool.arrive(&seen, copies)
}

/// Takes the outputs of each level, and puts them behind those that lie beside the pool.
pub(crate) fn gather<B: Reactor>(
    pool: &mut Pool<B>,
    puts: &mut Vec<Outputs>,
) -> Result<(), NoMemory>
    requires unspent { pool.old.spent ≡ false }
    requires count { length puts.old.items ≡ pooled.size pool.old }
    ensures { OnOk result (HasGathered pool.old puts.old.items pool.new puts.new.items) }
{
    for number in 0..pool.size() {
        let outs = pool.take(Level(number))?;
        puts[usize::from(number)].append(outs)?;
    }
    Ok(())
}

/// The last step that is kept is taken back, where there is one: its pool is the pool again, and
/// the outputs that lay beside it are those that stay.
pub(crate) fn go_back<B: Reactor>(
    kept: &mut Vec<Kept<B>>,
    puts: &mut Vec<Outputs>,
    pool: &mut Pool<B>,
)
    requires { (p : Assignment) × ArePartsFor p kept.old.items puts.old.items pool.old }
    ensures done { history_of kept.new.items puts.new.items pool.new
        ≡ taken_back (history_of kept.old.items puts.old.items pool.old) }
    ensures parts { (p : Assignment) → ArePartsFor p kept.old.items puts.old.items pool.old
        → ArePartsFor p kept.new.items puts.new.items pool.new }
{
    if let Some(last) = kept.pop() {
        cut_all(puts, last.counts());
        *pool = last.pool();
    }
}

/// Of the outputs of each level the first ones stay, as many as its count says.
fn cut_all(puts: &mut Vec<Outputs>, counts: &[usize])
    requires { length counts.now ≡ length puts.old.items }
    ensures { puts.new.items ≡ cut counts.now puts.old.items }
{
    for number in 0..puts.len() {
        puts[number].cut(counts[number]);
    }
}
