//! Responses, printed.
ghost use Rattle.std.specs.Prelude.{[], ◌∷◌, map};
ghost use Rattle.ff_text.specs.Printed.{spelled};
ghost use Rattle.ff_forms.specs.Canonical.{string, word, parens, doc_item, expr_item, cookie_item, cookies_item, resp_item};
ghost use Rattle.ff_forms.specs.Heads.{resp_word, cookie_word};
ghost use Rattle.ff_forms.specs.declared.heads.CookieHead.TheVariants as cookie_head;
ghost use Rattle.ff_forms.specs.declared.heads.RespHead.TheVariants as resp_head;
ghost use Rattle.ff_printing.specs.Pieces.{Prints, after_blank, each_after_blank};

use crate::print_tree::{print_docs, print_part};
use crate::printer::Printer;
use ff_forms::{CookieHead, RespHead};
use ff_name::Text;
use ff_tree::{Doc, Expr};
use ff_value::{CookieOp, Resp};

/// Appends a response.
pub(crate) fn print_resp(resp: &Resp, out: &mut Printer)
    ensures { Prints out.old out.new (spelled (resp_item resp.now)) }
{
    match resp {
        Resp::Page(cookies, docs) => print_page(cookies.as_slice(), docs.as_slice(), out),
        Resp::Script(cookies, body) => print_script(cookies.as_slice(), body.get(), out),
        Resp::Data(cookies, text) => print_data(cookies.as_slice(), text, out),
    }
}

fn print_page(cookies: &[CookieOp], docs: &[Doc], out: &mut Printer)
    ensures { Prints out.old out.new (spelled
        (parens (word (resp_word resp_head.Page) ∷ cookies_item cookies.now
        ∷ map doc_item docs.now))) }
{
    out.open(RespHead::Page);
    print_cookies(cookies, out);
    print_docs(docs, out);
    out.close_list();
}

fn print_script(cookies: &[CookieOp], body: &Expr, out: &mut Printer)
    ensures { Prints out.old out.new (spelled
        (parens (word (resp_word resp_head.Script) ∷ cookies_item cookies.now ∷ expr_item body.now
        ∷ []))) }
{
    out.open(RespHead::Script);
    print_cookies(cookies, out);
    print_part(body, out);
    out.close_list();
}

fn print_data(cookies: &[CookieOp], text: &Text, out: &mut Printer)
    ensures { Prints out.old out.new (spelled
        (parens (word (resp_word resp_head.Data) ∷ cookies_item cookies.now ∷ string text.now
        ∷ []))) }
{
    out.open(RespHead::Data);
    print_cookies(cookies, out);
    out.string(text);
    out.close_list();
}

/// Appends a list of cookie entries and the blank before it.
fn print_cookies(cookies: &[CookieOp], out: &mut Printer)
    ensures { Prints out.old out.new (after_blank (cookies_item cookies.now)) }
{
    match cookies.split_first() {
        None => out.bytes(b" ()"),
        Some((first, rest)) => print_entries(first, rest, out),
    }
}

/// Appends a list of entries, of which there is a first, and the blank before it.
fn print_entries(first: &CookieOp, rest: &[CookieOp], out: &mut Printer)
    ensures { Prints out.old out.new (after_blank (cookies_item (first.now ∷ rest.now))) }
{
    out.bytes(b" (");
    print_entry(first, out);
    print_further(rest, out);
    out.close_list();
}

/// Appends entries with a blank before each.
fn print_further(cookies: &[CookieOp], out: &mut Printer)
    ensures { Prints out.old out.new (each_after_blank cookie_item cookies.now) }
{
    for entry in cookies {
        out.bytes(b" ");
        print_entry(entry, out);
    }
}

/// Appends what a response does to one cookie.
fn print_entry(entry: &CookieOp, out: &mut Printer)
    ensures { Prints out.old out.new (spelled (cookie_item entry.now)) }
{
    match entry {
        CookieOp::Put(key, value) => print_put(key, value, out),
        CookieOp::Drop(key) => out.labelled(CookieHead::Drop, key),
    }
}

fn print_put(key: &Text, value: &Text, out: &mut Printer)
    ensures { Prints out.old out.new (spelled
        (parens (word (cookie_word cookie_head.Put) ∷ string key.now ∷ string value.now ∷ []))) }
{
    out.open(CookieHead::Put);
    out.string(key);
    out.string(value);
    out.close_list();
}
