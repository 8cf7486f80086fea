ghost use Rattle.std.specs.Prelude.{◌≡◌, ◌↔◌, IsTrue};

use crate::tree::{Doc, Expr, Handler, Names};
use std::cmp::{Eq, PartialEq};

impl PartialEq for Expr {
    ghost use Rattle.ff_tree.specs.contracts.tree.Expr.{the_row};
    ghost use Rattle.ff_shared.specs.Content.{same_content, same_content-per};

    ghost eq = { same_content the_row.coded };

    ghost laws = { same_content-per the_row.coded };

    fn eq(&self, other: &Expr) -> bool
        ensures { IsTrue result ↔ (self.now ≡ other.now) }
    {
        same_expr(self, other)
    }
}

impl Eq for Expr {
    ghost use Rattle.ff_tree.specs.contracts.tree.Expr.{the_row};
    ghost use Rattle.ff_shared.specs.Content.{same_content-equiv};

    ghost laws = { same_content-equiv the_row.coded };
}

impl PartialEq for Handler {
    ghost use Rattle.ff_tree.specs.contracts.tree.Handler.{the_row};
    ghost use Rattle.ff_shared.specs.Content.{same_content, same_content-per};

    ghost eq = { same_content the_row.coded };

    ghost laws = { same_content-per the_row.coded };

    fn eq(&self, other: &Handler) -> bool
        ensures { IsTrue result ↔ (self.now ≡ other.now) }
    {
        same_handler(self, other)
    }
}

impl Eq for Handler {
    ghost use Rattle.ff_tree.specs.contracts.tree.Handler.{the_row};
    ghost use Rattle.ff_shared.specs.Content.{same_content-equiv};

    ghost laws = { same_content-equiv the_row.coded };
}

impl PartialEq for Doc {
    ghost use Rattle.ff_tree.specs.contracts.tree.Doc.{the_row};
    ghost use Rattle.ff_shared.specs.Content.{same_content, same_content-per};

    ghost eq = { same_content the_row.coded };

    ghost laws = { same_content-per the_row.coded };

    fn eq(&self, other: &Doc) -> bool
        ensures { IsTrue result ↔ (self.now ≡ other.now) }
    {
        same_doc(self, other)
    }
}

impl Eq for Doc {
    ghost use Rattle.ff_tree.specs.contracts.tree.Doc.{the_row};
    ghost use Rattle.ff_shared.specs.Content.{same_content-equiv};

    ghost laws = { same_content-equiv the_row.coded };
}

/// Whether two expressions are equal.
#[cycle(same)]
pub(crate) fn same_expr(a: &Expr, b: &Expr) -> bool
    ensures { IsTrue result ↔ (a.now ≡ b.now) }
{
    match a {
        Expr::Lit(lit) => match b {
            Expr::Lit(other) => *lit == *other,
            _ => false,
        },
        Expr::Var(name) => match b {
            Expr::Var(other) => *name == *other,
            _ => false,
        },
        Expr::Let(name, body) => match b {
            Expr::Let(name2, body2) => *name == *name2 && same_expr(body.get(), body2.get()),
            _ => false,
        },
        Expr::Set(name, body) => match b {
            Expr::Set(name2, body2) => *name == *name2 && same_expr(body.get(), body2.get()),
            _ => false,
        },
        Expr::If(test, yes, no) => match b {
            Expr::If(test2, yes2, no2) => {
                same_expr(test.get(), test2.get())
                    && same_expr(yes.get(), yes2.get())
                    && same_expr(no.get(), no2.get())
            }
            _ => false,
        },
        Expr::While(test, body) => match b {
            Expr::While(test2, body2) => {
                same_expr(test.get(), test2.get()) && same_expr(body.get(), body2.get())
            }
            _ => false,
        },
        Expr::Do(parts) => match b {
            Expr::Do(parts2) => same_exprs(parts.as_slice(), parts2.as_slice()),
            _ => false,
        },
        Expr::And(left, right) => match b {
            Expr::And(left2, right2) => {
                same_expr(left.get(), left2.get()) && same_expr(right.get(), right2.get())
            }
            _ => false,
        },
        Expr::Or(left, right) => match b {
            Expr::Or(left2, right2) => {
                same_expr(left.get(), left2.get()) && same_expr(right.get(), right2.get())
            }
            _ => false,
        },
        Expr::Make(params, body) => match b {
            Expr::Make(params2, body2) => {
                same_names(params, params2) && same_expr(body.get(), body2.get())
            }
            _ => false,
        },
        Expr::Apply(function, args) => match b {
            Expr::Apply(function2, args2) => {
                same_expr(function.get(), function2.get())
                    && same_exprs(args.as_slice(), args2.as_slice())
            }
            _ => false,
        },
        Expr::Tree(doc) => match b {
            Expr::Tree(doc2) => same_doc(doc, doc2),
            _ => false,
        },
        Expr::Prim(op, args) => match b {
            Expr::Prim(op2, args2) => {
                *op == *op2 && same_exprs(args.as_slice(), args2.as_slice())
            }
            _ => false,
        },
    }
}

#[cycle(same)]
fn same_exprs(xs: &[Expr], ys: &[Expr]) -> bool
    ensures { IsTrue result ↔ (xs.now ≡ ys.now) }
{
    if xs.len() != ys.len() {
        return false;
    }
    for i in 0..xs.len() {
        if !same_expr(&xs[i], &ys[i]) {
            return false;
        }
    }
    true
}

/// Whether two handlers are equal.
#[cycle(same)]
pub(crate) fn same_handler(a: &Handler, b: &Handler) -> bool
    ensures { IsTrue result ↔ (a.now ≡ b.now) }
{
    a.param == b.param && same_expr(a.body.get(), b.body.get())
}

#[cycle(same)]
fn same_handlers(xs: &[Handler], ys: &[Handler]) -> bool
    ensures { IsTrue result ↔ (xs.now ≡ ys.now) }
{
    if xs.len() != ys.len() {
        return false;
    }
    for i in 0..xs.len() {
        if !same_handler(&xs[i], &ys[i]) {
            return false;
        }
    }
    true
}

/// Whether two documents are equal.
#[cycle(same)]
pub(crate) fn same_doc(a: &Doc, b: &Doc) -> bool
    ensures { IsTrue result ↔ (a.now ≡ b.now) }
{
    match a {
        Doc::Text(name, text) => match b {
            Doc::Text(name2, text2) => *name == *name2 && *text == *text2,
            _ => false,
        },
        Doc::Link(name, url, label) => match b {
            Doc::Link(name2, url2, label2) => {
                *name == *name2 && *url == *url2 && *label == *label2
            }
            _ => false,
        },
        Doc::TextBox(name, text, handlers) => match b {
            Doc::TextBox(name2, text2, handlers2) => {
                *name == *name2
                    && *text == *text2
                    && same_handlers(handlers.as_slice(), handlers2.as_slice())
            }
            _ => false,
        },
        Doc::Button(name, label, handlers) => match b {
            Doc::Button(name2, label2, handlers2) => {
                *name == *name2
                    && *label == *label2
                    && same_handlers(handlers.as_slice(), handlers2.as_slice())
            }
            _ => false,
        },
        Doc::Script(name, body) => match b {
            Doc::Script(name2, body2) => *name == *name2 && same_expr(body.get(), body2.get()),
            _ => false,
        },
        Doc::Src(name, url) => match b {
            Doc::Src(name2, url2) => *name == *name2 && *url == *url2,
            _ => false,
        },
        Doc::Div(name, parts) => match b {
            Doc::Div(name2, parts2) => {
                *name == *name2 && same_docs(parts.as_slice(), parts2.as_slice())
            }
            _ => false,
        },
    }
}

/// Whether two lists of documents are equal.
#[cycle(same)]
pub fn same_docs(xs: &[Doc], ys: &[Doc]) -> bool
    ensures { IsTrue result ↔ (xs.now ≡ ys.now) }
{
    if xs.len() != ys.len() {
        return false;
    }
    for i in 0..xs.len() {
        if !same_doc(&xs[i], &ys[i]) {
            return false;
        }
    }
    true
}

/// Whether two lists of names are equal.
pub fn same_names(xs: &Names, ys: &Names) -> bool
    ensures { IsTrue result ↔ (xs.now ≡ ys.now) }
{
    *xs == *ys
}
