//! The saved text of a pool at rest, written.
ghost use Rattle.std.specs.Prelude.{◌≡◌, ◌<◌, ◌↔◌, false, IfOk, IsTrue, flat_map};
ghost use Rattle.std.specs.Str.{IsUtf8};
ghost use Rattle.ff_contract.specs.Appending.{Appends};
ghost use Rattle.ff_lattice.specs.Order.{size};
ghost use Rattle.ff_policy.specs.Printing.{printed};
ghost use Rattle.ff_pool.specs.Pooled.{size as size_of};
ghost use Rattle.ff_pool.specs.Restored.{IsResting};
ghost use Rattle.ff_printing.specs.Pieces.{Prints};
ghost use Rattle.ff_saved_rows.specs.Rows.{rows_text};
ghost use Rattle.ff_contract.specs.Lists.{below};
ghost use Rattle.ff_confinement.specs.Worlds.{leader};
ghost use Rattle.ff_save.specs.LevelByLevel.{level_rows};
ghost use Rattle.ff_save.specs.Saved.{saved_recs, saved_rows, saved_text};

use crate::writing_stores::put_stores;
use ff_name::{Level, NoMemory, Text};
use ff_policy::Policy;
use ff_pool::Pool;
use ff_printing::Printer;
use ff_restorable::Restorable;
use ff_saved_rows::{put_class, put_end, put_head, put_policy};
use std::alloc::Global;

/// Appends the saved text of a pool at rest that has a copy for each level of the policy, with the
/// policy's fuel. Its one refusal is want of memory, after which a front of the text was appended.
/// It writes texts too that are too long to be read.
#[tactic(auto, using(ff_contract::proofs::Sequence::front_none))]
pub fn write_saved<B: Restorable>(
    alloc: Global,
    policy: &Policy,
    pool: &Pool<B>,
    out: &mut Vec<u8>,
) -> Result<(), NoMemory>
    requires { IsResting (size policy.now.order) policy.now.fuel pool.now }
    ensures { Appends result out.old.items out.new.items
        (saved_text policy.now (saved_recs pool.now)) }
{
    let text = policy_text(alloc, policy)?;
    let mut printer = Printer::after(out)?;
    write_rows(policy, &text, pool, &mut printer);
    printer.end(out)
}

/// The policy as it is printed.
pub(crate) fn policy_text(alloc: Global, policy: &Policy) -> Result<Text, NoMemory>
    ensures value { IfOk result (λ text. text ≡ printed policy.now) }
    ensures utf8 { IfOk result (λ _. IsUtf8 (printed policy.now)) }
{
    let mut bytes = Vec::new(alloc);
    policy.print(alloc, &mut bytes)?;
    Text::of_utf8(alloc, bytes.as_slice())
}

fn write_rows<B: Restorable>(policy: &Policy, text: &Text, pool: &Pool<B>, out: &mut Printer)
    requires policy_is { text.now ≡ printed policy.now }
    requires rests { IsResting (size policy.now.order) policy.now.fuel pool.now }
    ensures { Prints out.old out.new (rows_text policy.now.order
        (saved_rows policy.now (saved_recs pool.now))) }
{
    put_head(out);
    put_policy(text, out);
    write_classes(policy, pool, out);
    put_end(out);
}

fn write_classes<B: Restorable>(policy: &Policy, pool: &Pool<B>, out: &mut Printer)
    requires { IsResting (size policy.now.order) policy.now.fuel pool.now }
    ensures { Prints out.old out.new (rows_text policy.now.order
        (flat_map (level_rows pool.now) (below (size policy.now.order)))) }
{
    for number in 0..policy.lattice().size() {
        write_level(policy, Level(number), pool, out);
    }
}

/// Appends the rows of the class of a level that is the least of it, and else nothing.
fn write_level<B: Restorable>(policy: &Policy, level: Level, pool: &Pool<B>, out: &mut Printer)
    requires rests { IsResting (size policy.now.order) policy.now.fuel pool.now }
    requires there { level.0 < size policy.now.order }
    ensures { Prints out.old out.new (rows_text policy.now.order (level_rows pool.now level.0)) }
{
    if leads(pool, level) {
        put_class(pool.members(level), policy.lattice(), out);
        put_stores(pool.browser(level).stores(), out);
    }
}

/// Whether a level is the least of its class.
fn leads<B: Restorable>(pool: &Pool<B>, level: Level) -> bool
    requires unspent { pool.now.spent ≡ false }
    requires there { level.0 < size_of pool.now }
    ensures { IsTrue result ↔ (leader pool.now.world.leaders level.0 ≡ level.0) }
{
    let _known = pool.spent();
    match pool.members(level).least() {
        Some(least) => least.0 == level.0,
        None => false,
    }
}
