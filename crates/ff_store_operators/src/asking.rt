//! The operator that asks a domain for something.
ghost use Rattle.std.specs.Prelude.{◌≡◌, ◌<◌, ◌==◌, true, length, All};
ghost use Rattle.ff_contract.specs.Rises.{RisesBy};
ghost use Rattle.ff_name.specs.Address.{IsWellSpelled};
ghost use Rattle.ff_name.specs.Reading.{read_url};
ghost use Rattle.ff_name.specs.declared.urls.Url.TheVariants as url;
ghost use Rattle.ff_tree.specs.declared.op.Op.TheVariants as op;
ghost use Rattle.ff_machine.specs.Answers.{Does};
ghost use Rattle.ff_machine.specs.Operators as operators;
ghost use Rattle.ff_machine.specs.References.{made};
ghost use Rattle.ff_machine.specs.Valid.{IsCode, IsVal};

use crate::operands::strs_code;
use crate::words::read_address;
use ff_contract::Steps;
use ff_machine::Dst;
use ff_name::{Domain, Text, Url};
use ff_operators::Fail;
use ff_stores::Stores;
use ff_value::{Code, Fault, Out, PageId, Val};
use std::alloc::Global;
use std::sync::ledger::Ledger;

/// `ask`: a body is sent to an address, whose reply a function of one parameter is called with.
pub(crate) fn ask<C: Ledger>(
    alloc: Global,
    stores: &mut Stores,
    page: PageId,
    args: &[Val],
    outs: &mut Vec<Out>,
    copies: &mut Steps<C>,
) -> Result<Val, Fail>
    requires page { page.0 < length stores.old.windows.pages }
    requires values { All (IsVal (made stores.old)) args.now }
    ensures does { Does (operators.operate stores.old page op.Ask args.now) result stores.old
        stores.new outs.old.items outs.new.items }
    ensures copies { RisesBy 33 copies.old copies.new }
{
    let Some((address, body, code)) = strs_code(args) else {
        return Err(Fail::Fault(Fault::Kind));
    };
    if code.params.len() != 1 {
        return Err(Fail::Fault(Fault::Kind));
    }
    match read_address(alloc, address)? {
        Some(url) => ask_at(stores, page, &url, body, code, outs, copies),
        None => Err(Fail::Fault(Fault::Range)),
    }
}

/// The address has a domain, and there is room for the request.
fn ask_at<C: Ledger>(
    stores: &mut Stores,
    page: PageId,
    url: &Url,
    body: &Text,
    code: &Code,
    outs: &mut Vec<Out>,
    copies: &mut Steps<C>,
) -> Result<Val, Fail>
    requires page { page.0 < length stores.old.windows.pages }
    requires url { IsWellSpelled url.now }
    requires code { IsCode (made stores.old) code.now }
    requires takes_one { length code.now.params ≡ 1 }
    ensures does { Does (operators.ask_at stores.old page body.now code.now url.now) result
        stores.old stores.new outs.old.items outs.new.items }
    ensures copies { RisesBy 33 copies.old copies.new }
{
    let Url::At(domain, uri) = url else {
        return Err(Fail::Fault(Fault::Range));
    };
    let to = Dst::Call(page, code.copy()?);
    if stores.send(domain, uri, body, to, outs, copies)? {
        Ok(Val::Null)
    } else {
        Err(Fail::Fault(Fault::Limit))
    }
}
