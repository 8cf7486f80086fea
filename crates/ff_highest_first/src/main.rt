//! Another scheduler: all inputs of its trace arrive first; then the highest level with work makes
//! one step, as long as there is one. Each level's lines are those of `ffox multi -`: the schedule
//! decides when they come, and nothing else (`ff_pool::Pool::play`). Floor: beside.
#![tactic(auto)]

ghost use Rattle.std.specs.Prelude.{◌≡◌, ◌<◌, false};
ghost use Rattle.std.specs.Bool.{OnTrue};
ghost use Rattle.libffox.specs.Levels.{size as count_levels};
ghost use Rattle.libffox.specs.Pools.{size};

use libffox::policy::Policy;
use libffox::session::print_level;
use libffox::{Level, NoMemory, Pool, Steps, route, trace};
use std::alloc::{AllocError, Global};
use std::marker::Brand;
use std::sync::ledger::{Blank, Ledger};

/// Whether the pool isn't spent and has the levels of the policy.
fn is_of(pool: &Pool, policy: &Policy) -> bool
    ensures unspent { OnTrue result (pool.now.spent ≡ false) }
    ensures levels { OnTrue result (size pool.now ≡ count_levels policy.now.order) }
{
    !pool.spent() && pool.size() == policy.lattice().size()
}

/// What the levels put for the trace of these lines, under the built-in policy.
#[tactic(auto, using(libffox::proofs::Offers::offers_fit))]
fn run<C: Ledger, L: Ledger>(
    alloc: Global,
    lines: &[String],
    copies: Blank,
    turns: Blank,
) -> Result<Vec<u8>, NoMemory>
    requires copies { (copies.name ≡ C.name) × (copies.parts ≡ C.parts) × (0 < copies.parts) }
    requires turns { (turns.name ≡ L.name) × (turns.parts ≡ L.parts) × (0 < turns.parts) }
{
    let (mut copied, mut made) = (Steps::<C>::new(copies), Steps::<L>::new(turns));
    let (policy, mut room) = (Policy::builtin(alloc)?, trace::Room::new(alloc));
    let mut pool = Pool::new(alloc, policy.lattice().size(), policy.fuel())?;
    for line in lines {
        if line.len() > 65_536 || !is_of(&pool, &policy) {
            return Err(AllocError);
        }
        let read = trace::read_input(alloc, &mut room, line.as_bytes(), policy.lattice());
        if let Ok(Some(input)) = &read {
            pool.arrive(&route::offers(alloc, &policy, input)?, &mut copied)?;
        }
    }
    let mut level = policy.lattice().size();
    for _step in 0..u32::MAX {
        if level == 0 || !is_of(&pool, &policy) || level > policy.lattice().size() {
            break;
        } else if pool.has_work(Level(level - 1)) {
            pool.turn(Level(level - 1), &mut copied, &mut made)?;
            level = policy.lattice().size();
        } else {
            level -= 1;
        }
    }
    let mut text = Vec::new(alloc);
    for number in 0..policy.lattice().size() {
        if is_of(&pool, &policy) {
            let outs = pool.take(Level(number))?;
            print_level(&policy, Level(number), outs.as_slice(), &mut text)?;
        }
    }
    Ok(text)
}

fn main(rt: HostRuntime) -> std::io::Result<()> {
    let mut lines = Vec::new(rt.alloc());
    for line in rt.lines(rt.alloc()) {
        lines.push(line?)?;
    }
    match run::<Brand, Brand>(rt.alloc(), lines.as_slice(), Blank::new(1), Blank::new(1)) {
        Ok(text) => rt.print(String::from_utf8_lossy(rt.alloc(), text.as_slice())?),
        Err(_) => println!(rt; "no memory"),
    }
}
