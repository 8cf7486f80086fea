//! What `show` writes.
ghost use Rattle.std.specs.Prelude.{◌≡◌, ◌<◌, ◌++◌, [], ◌∷◌, cond, filter, length, OnOk};
ghost use Rattle.ff_contract.specs.Lists.{below};
ghost use Rattle.ff_lattice.specs.Order.{name, size};
ghost use Rattle.ff_lattice.specs.LevelSet.{has};
ghost use Rattle.ff_travel.specs.Beside.{IsPoolFor, under};
ghost use Rattle.ff_travel.specs.Shown.{class_line, names_text, show_line, shown, work_text};

use crate::outputs::Outputs;
use ff_lattice::{Lattice, LevelSet};
use ff_policy::Policy;
use ff_pool::{NoMemory, Pool, Reactor};
use ff_session::print_level;
use ff_value::Level;

/// Appends what a level's copy has put, and its class.
pub(crate) fn show<B: Reactor>(
    policy: &Policy,
    pool: &Pool<B>,
    puts: &[Outputs],
    level: Level,
    out: &mut Vec<u8>,
) -> Result<(), NoMemory>
    requires pool { IsPoolFor policy.now pool.now }
    requires puts { length puts.now ≡ size policy.now.order }
    requires level { level.0 < size policy.now.order }
    ensures { OnOk result (out.new.items ≡ out.old.items
        ++ shown policy.now (under puts.now pool.now) level.0) }
{
    print_head(policy.lattice(), level, out)?;
    print_level(policy, level, puts[usize::from(level.0)].as_slice(), out)?;
    print_class(policy, pool, level, out)
}

/// Appends the line that names the level.
fn print_head(lattice: &Lattice, level: Level, out: &mut Vec<u8>) -> Result<(), NoMemory>
    requires { level.0 < size lattice.now }
    ensures { OnOk result (out.new.items ≡ out.old.items ++ show_line lattice.now level.0) }
{
    out.extend_from_slice(b"show ")?;
    out.extend_from_slice(lattice.name(level).as_bytes())?;
    out.push(b'\n')?;
    Ok(())
}

/// Appends the line of a level's class.
fn print_class<B: Reactor>(
    policy: &Policy,
    pool: &Pool<B>,
    level: Level,
    out: &mut Vec<u8>,
) -> Result<(), NoMemory>
    requires pool { IsPoolFor policy.now pool.now }
    requires level { level.0 < size policy.now.order }
    ensures { OnOk result (out.new.items ≡ out.old.items
        ++ class_line policy.now pool.now.world level.0) }
{
    let class = pool.members(level);
    out.extend_from_slice(b"class")?;
    print_names(policy.lattice(), class, out)?;
    out.extend_from_slice(work_of(pool.has_work(level)))?;
    out.push(b'\n')?;
    Ok(())
}

/// Whether a copy has work, as it is written.
fn work_of(works: bool) -> &'static [u8]
    ensures { result.now ≡ work_text works }
{
    if works { b" running" } else { b" quiet" }
}

/// Appends the names of the levels of a set, each after a blank.
#[tactic(auto, using(crate::proofs::Naming::names_start, crate::proofs::Naming::names_next, crate::proofs::Naming::names_done))]
fn print_names(lattice: &Lattice, class: LevelSet, out: &mut Vec<u8>) -> Result<(), NoMemory>
    ensures { OnOk result (out.new.items ≡ out.old.items
        ++ names_text lattice.now (filter (has class) (below (size lattice.now)))) }
{
    for number in 0..lattice.size() {
        print_if_in(lattice, class, Level(number), out)?;
    }
    Ok(())
}

/// Appends a blank and the name of a level, if the set has it.
fn print_if_in(
    lattice: &Lattice,
    class: LevelSet,
    level: Level,
    out: &mut Vec<u8>,
) -> Result<(), NoMemory>
    requires { level.0 < size lattice.now }
    ensures { OnOk result (out.new.items ≡ out.old.items
        ++ cond (has class level.0) (32 ∷ name lattice.now level.0) []) }
{
    let name = lattice.name(level);
    if !class.has(level) {
        return Ok(());
    }
    out.push(b' ')?;
    out.extend_from_slice(name.as_bytes())
}
