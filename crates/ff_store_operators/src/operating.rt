//! Which function does what an operator does.
ghost use Rattle.std.specs.Prelude.{◌≡◌, length, All, IsTrue};
ghost use Rattle.ff_contract.specs.Rises.{RisesBy};
ghost use Rattle.ff_tree.specs.Ops.{arity_of};
ghost use Rattle.ff_machine.specs.Answers.{Does};
ghost use Rattle.ff_machine.specs.Operators as operators;
ghost use Rattle.ff_machine.specs.Windows.{is_live};
ghost use Rattle.ff_machine.specs.References.{made};
ghost use Rattle.ff_machine.specs.Valid.{IsVal};
ghost use Rattle.ff_store_operators.specs.Copies.{most_copies};

use crate::pure::pure;
use crate::readers::made_live;
use crate::{asking, changes, cookies, nodes, opening, windows};
use ff_contract::Steps;
use ff_operators::Fail;
use ff_stores::Stores;
use ff_value::{Op, Out, PageId, Val};
use std::alloc::Global;
use std::sync::ledger::Ledger;

/// What an operator does with its operands, for a task of a live page: it gives a value, or fails
/// with the fault that the definition says, and then nothing has changed. After want of memory the
/// outputs are the old ones and a front of the new ones.
pub fn operate<C: Ledger>(
    alloc: Global,
    stores: &mut Stores,
    page: PageId,
    op: Op,
    args: &[Val],
    outs: &mut Vec<Out>,
    copies: &mut Steps<C>,
) -> Result<Val, Fail>
    requires arity { length args.now ≡ arity_of op }
    requires values { All (IsVal (made stores.old)) args.now }
    requires live { IsTrue (is_live stores.old.windows page) }
    ensures does { Does (operators.operate stores.old page op args.now) result stores.old stores.new
        outs.old.items outs.new.items }
    ensures copies { RisesBy (most_copies stores.old op args.now) copies.old copies.new }
{
    made_live(stores, page);
    match op {
        Op::Cookie => cookies::cookie(stores, page, args),
        Op::SetCookie => cookies::set_cookie(stores, page, args, copies),
        Op::DelCookie => cookies::del_cookie(stores, page, args, copies),
        Op::SelfWindow => windows::self_window(stores, page, args),
        Op::Opener => windows::opener(stores, page, args),
        Op::Live => windows::live(stores, page, args),
        Op::Url => windows::url(alloc, stores, page, args),
        Op::Page => windows::page(stores, page, args),
        Op::Window => windows::window(stores, page, args),
        Op::Open => opening::open(alloc, stores, page, args, outs, copies),
        Op::OpenNamed => opening::open_named(alloc, stores, page, args, outs, copies),
        Op::Go => opening::go(alloc, stores, page, args, outs, copies),
        Op::Close => opening::close(stores, page, args, outs, copies),
        Op::Kind => nodes::kind(alloc, stores, page, args),
        Op::Text => nodes::text(stores, page, args),
        Op::SetText => changes::set_text(stores, page, args, copies),
        Op::Count => nodes::count(stores, page, args),
        Op::Child => nodes::child(stores, page, args),
        Op::Find => nodes::find(stores, page, args),
        Op::Nth => nodes::nth(stores, page, args),
        Op::Insert => changes::insert(stores, page, args, outs, copies),
        Op::Listen => changes::listen(stores, page, args, copies),
        Op::Ask => asking::ask(alloc, stores, page, args, outs, copies),
        _ => pure(alloc, stores, op, args),
    }
}
