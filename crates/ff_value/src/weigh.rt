ghost use Rattle.std.specs.Prelude.{◌≡◌};
ghost use Rattle.ff_tree.specs.Weight.{capped};
ghost use Rattle.ff_value.specs.Weight.{cookie_weight, cookies_weight, resp_weight};

use crate::reply::{CookieOp, Resp};
use ff_tree::{ITEM, string_weight, weight_docs, weight_expr};

/// What a response weighs: 16 for each item of its notation, and the bytes of each string; the
/// greatest `u64` for any larger sum.
pub fn weight_resp(resp: &Resp) -> u64
    ensures { result ≡ capped (resp_weight resp.now) }
{
    match resp {
        Resp::Page(cookies, docs) => weight_docs(docs.as_slice())
            .saturating_add(weight_cookies(cookies.as_slice()))
            .saturating_add(2 * ITEM),
        Resp::Script(cookies, body) => weight_expr(body.get())
            .saturating_add(weight_cookies(cookies.as_slice()))
            .saturating_add(2 * ITEM),
        Resp::Data(cookies, text) => string_weight(text)
            .saturating_add(weight_cookies(cookies.as_slice()))
            .saturating_add(2 * ITEM),
    }
}

/// What the list of some cookie entries weighs.
fn weight_cookies(cookies: &[CookieOp]) -> u64
    ensures { result ≡ capped (cookies_weight cookies.now) }
{
    let mut total: u64 = ITEM;
    for entry in cookies {
        total = total.saturating_add(weight_cookie(entry));
    }
    total
}

fn weight_cookie(entry: &CookieOp) -> u64
    ensures { result ≡ capped (cookie_weight entry.now) }
{
    match entry {
        CookieOp::Put(key, value) => string_weight(key)
            .saturating_add(string_weight(value))
            .saturating_add(2 * ITEM),
        CookieOp::Drop(key) => string_weight(key).saturating_add(2 * ITEM),
    }
}
