//! The pool of copies takes offers, and lets out what they put.
ghost use Rattle.std.specs.Prelude.{◌≡◌, ◌<◌, ◌≤◌, ◌+◌, ◌++◌, ◌∷◌, [], List, OnOk, IfOk};
ghost use Rattle.ff_lattice.specs.Order.{size};
ghost use Rattle.ff_value.specs.declared.input.Input.{Input};
ghost use Rattle.ff_value.specs.Spelled.{IsWellSpelledInput};
ghost use Rattle.ff_confinement.specs.Worlds.{AreOffers};
ghost use Rattle.ff_pool.specs.Pooled as pooled;
ghost use Rattle.ff_machine.specs.State.{State};
ghost use Rattle.ff_session.specs.Levels.{machine};
ghost use Rattle.ff_confinement.specs.Standings.{Standing, Offering, fresh};
ghost use Rattle.ff_session.specs.Multi.{AreCopiesAt, AreTakenBelow, IsOffered, copies_entry, copies_turns};

use crate::NoMemory;
use crate::printing::print_level;
use ff_contract::Steps;
use ff_policy::Policy;
use ff_pool::{Pool, Reactor};
use ff_value::{Level, Offers};
use std::alloc::Global;
use std::sync::ledger::Ledger;

/// Lets each level's offer of an input come to its copy, lets all copies do what then waits, and
/// appends the lines of what they put, level by level. `turns` counts the turns of each class once.
/// A class makes up to `slice` steps before the next one has its turn, from 1 on. Its one refusal
/// is want of memory, and then the pool isn't used any more.
pub fn take_offers<B: Reactor, C: Ledger, L: Ledger>(
    policy: &Policy,
    slice: u32,
    pool: &mut Pool<B>,
    offers: &Offers<'_>,
    text: &mut Vec<u8>,
    copies: &mut Steps<C>,
    turns: &mut Steps<L>,
) -> Result<(), NoMemory>
    requires slice { 0 < slice }
    requires offers { AreOffers IsWellSpelledInput (size policy.now.order) offers.now }
    requires at { (all : Offering Input) × (from : Standing State) × (is : List Input)
        × AreCopiesAt policy.now all from pool.old is }
    ensures taken { OnOk result ((all : Offering Input) (from : Standing State) (is : List Input)
        (i : Input) → IsOffered policy.now all is i offers.now
        → AreCopiesAt policy.now all from pool.old is
        → AreCopiesAt policy.now all from pool.new (is ++ i ∷ [])) }
    ensures text { OnOk result ((all : Offering Input) (from : Standing State) (is : List Input)
        (i : Input) → IsOffered policy.now all is i offers.now
        → AreCopiesAt policy.now all from pool.old is
        → text.new.items ≡ text.old.items ++ copies_entry policy.now all from is i) }
    ensures count { OnOk result ((all : Offering Input) (from : Standing State) (is : List Input)
        (i : Input) → IsOffered policy.now all is i offers.now
        → AreCopiesAt policy.now all from pool.old is
        → turns.new ≡ turns.old + copies_turns policy.now all from is i) }
    ensures later { turns.old ≤ turns.new }
    ensures most { (all : Offering Input) (from : Standing State) (is : List Input) (i : Input)
        → IsOffered policy.now all is i offers.now → AreCopiesAt policy.now all from pool.old is
        → turns.new ≤ turns.old + copies_turns policy.now all from is i }
    ensures later_copies { copies.old ≤ copies.new }
{
    give(policy, slice, pool, offers, copies, turns)?;
    let_out(policy, pool, text)
}

/// Lets offers come to the levels, and all classes do what then waits.
fn give<B: Reactor, C: Ledger, L: Ledger>(
    policy: &Policy,
    slice: u32,
    pool: &mut Pool<B>,
    offers: &Offers<'_>,
    copies: &mut Steps<C>,
    turns: &mut Steps<L>,
) -> Result<(), NoMemory>
    requires slice { 0 < slice }
    requires offers { AreOffers IsWellSpelledInput (size policy.now.order) offers.now }
    requires at { (all : Offering Input) × (from : Standing State) × (is : List Input)
        × AreCopiesAt policy.now all from pool.old is }
    ensures given { OnOk result ((all : Offering Input) (from : Standing State) (is : List Input)
        (i : Input) → IsOffered policy.now all is i offers.now
        → AreCopiesAt policy.now all from pool.old is
        → AreTakenBelow policy.now all from pool.new is i 0) }
    ensures levels { OnOk result (pooled.size pool.new ≡ size policy.now.order) }
    ensures count { OnOk result ((all : Offering Input) (from : Standing State) (is : List Input)
        (i : Input) → IsOffered policy.now all is i offers.now
        → AreCopiesAt policy.now all from pool.old is
        → turns.new ≡ turns.old + copies_turns policy.now all from is i) }
    ensures later { turns.old ≤ turns.new }
    ensures most { (all : Offering Input) (from : Standing State) (is : List Input) (i : Input)
        → IsOffered policy.now all is i offers.now → AreCopiesAt policy.now all from pool.old is
        → turns.new ≤ turns.old + copies_turns policy.now all from is i }
    ensures later_copies { copies.old ≤ copies.new }
{
    pool.arrive(offers, copies)?;
    pool.drain(slice, copies, turns)
}

/// Takes the outputs of each level in order, and appends the lines of those that are at the level.
fn let_out<B: Reactor>(
    policy: &Policy,
    pool: &mut Pool<B>,
    text: &mut Vec<u8>,
) -> Result<(), NoMemory>
    requires { pooled.size pool.old ≡ size policy.now.order }
    ensures taken { OnOk result ((all : Offering Input) (from : Standing State) (is : List Input)
        (i : Input) → AreTakenBelow policy.now all from pool.old is i 0
        → AreCopiesAt policy.now all from pool.new (is ++ i ∷ [])) }
    ensures text { OnOk result ((all : Offering Input) (from : Standing State) (is : List Input)
        (i : Input) → AreTakenBelow policy.now all from pool.old is i 0
        → text.new.items ≡ text.old.items ++ copies_entry policy.now all from is i) }
{
    for number in 0..policy.lattice().size() {
        let level = Level(number);
        let outs = pool.take(level)?;
        print_level(policy, level, outs.as_slice(), text)?;
    }
    Ok(())
}

/// A pool for the levels of a policy, in which nothing came to any of them yet. It is refused only
/// for want of memory.
pub fn new_pool<B: Reactor>(alloc: Global, policy: &Policy) -> Result<Pool<B>, NoMemory>
    ensures pool { IfOk result (λ pool. pool
        ≡ pooled.new_pool (size policy.now.order) policy.now.fuel) }
    ensures copies { IfOk result (λ pool. (all : Offering Input)
        → AreCopiesAt policy.now all (fresh (machine policy.now)) pool []) }
{
    Pool::new(alloc, policy.lattice().size(), policy.fuel())
}
