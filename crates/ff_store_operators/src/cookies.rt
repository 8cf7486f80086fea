//! The operators on cookies, of the domain of the task's page. A blank page has no domain.
ghost use Rattle.std.specs.Prelude.{◌≡◌, ◌<◌, List, length, Some};
ghost use Rattle.ff_contract.specs.Rises.{RisesBy};
ghost use Rattle.ff_tree.specs.declared.op.Op.TheVariants as op;
ghost use Rattle.ff_value.specs.declared.output.Out.{Out};
ghost use Rattle.ff_machine.specs.Answers.{Does, Reads};
ghost use Rattle.ff_machine.specs.Net as net;
ghost use Rattle.ff_machine.specs.Operators as operators;

use crate::readers::page_domain;
use ff_contract::Steps;
use ff_name::{Domain, Text, Url};
use ff_operators::Fail;
use ff_operators::operands::{one_str, two_strs};
use ff_stores::Stores;
use ff_value::{Fault, PageId, Val};
use std::sync::ledger::Ledger;

/// `cookie`: the value of a cookie, or `null`.
pub(crate) fn cookie(stores: &Stores, page: PageId, args: &[Val]) -> Result<Val, Fail>
    requires { page.0 < length stores.now.windows.pages }
    ensures { Reads (operators.operate stores.now page op.Cookie args.now) result }
{
    let Some(key) = one_str(args) else {
        return Err(Fail::Fault(Fault::Kind));
    };
    match stores.windows().url_of(page) {
        Url::Blank => Ok(Val::Null),
        Url::At(domain, _uri) => value_at(stores, domain, key),
    }
}

fn value_at(stores: &Stores, domain: &Domain, key: &Text) -> Result<Val, Fail>
    ensures { Reads (operators.gives stores.now
        (operators.or_null Val.Str (net.cookie stores.now.jar domain.now key.now))) result }
{
    match stores.jar().get(domain, key.as_bytes()) {
        Some(value) => Ok(Val::Str(value.copy()?)),
        None => Ok(Val::Null),
    }
}

/// `set-cookie`: a cookie has a value from now on.
pub(crate) fn set_cookie<C: Ledger>(
    stores: &mut Stores,
    page: PageId,
    args: &[Val],
    copies: &mut Steps<C>,
) -> Result<Val, Fail>
    requires { page.0 < length stores.old.windows.pages }
    ensures does { (puts : List Out) → Does
        (operators.operate stores.old page op.SetCookie args.now) result stores.old stores.new puts
        puts }
    ensures copies { RisesBy 16 copies.old copies.new }
{
    let Some((key, value)) = two_strs(args) else {
        return Err(Fail::Fault(Fault::Kind));
    };
    let Some(domain) = page_domain(stores, page)? else {
        return Err(Fail::Fault(Fault::Range));
    };
    stores.put_cookie(&domain, key, value, copies)?;
    Ok(Val::Null)
}

/// `del-cookie`: a cookie is there no more.
pub(crate) fn del_cookie<C: Ledger>(
    stores: &mut Stores,
    page: PageId,
    args: &[Val],
    copies: &mut Steps<C>,
) -> Result<Val, Fail>
    requires { page.0 < length stores.old.windows.pages }
    ensures does { (puts : List Out) → Does
        (operators.operate stores.old page op.DelCookie args.now) result stores.old stores.new puts
        puts }
    ensures copies { RisesBy 17 copies.old copies.new }
{
    let Some(key) = one_str(args) else {
        return Err(Fail::Fault(Fault::Kind));
    };
    let Some(domain) = page_domain(stores, page)? else {
        return Ok(Val::Null);
    };
    stores.delete_cookie(&domain, key, copies)?;
    Ok(Val::Null)
}
