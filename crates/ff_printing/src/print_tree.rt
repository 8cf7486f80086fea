//! Documents and expressions, printed.
ghost use Rattle.std.specs.Prelude.{[], ◌∷◌, ◌++◌, map};
ghost use Rattle.ff_text.specs.Printed.{spelled};
ghost use Rattle.ff_forms.specs.Canonical.{word, string, address, parens, doc_item, expr_item, handler_item};
ghost use Rattle.ff_forms.specs.Heads.{doc_word, expr_word, handler_word};
ghost use Rattle.ff_forms.specs.declared.heads.DocHead.TheVariants as doc_head;
ghost use Rattle.ff_forms.specs.declared.heads.ExprHead.TheVariants as expr_head;
ghost use Rattle.ff_forms.specs.declared.heads.HandlerHead.TheVariants as handler_head;
ghost use Rattle.ff_printing.specs.Pieces.{Prints, after_blank, each_after_blank, ending};

use crate::printer::Printer;
use ff_forms::{DocHead, ExprHead, HandlerHead};
use ff_name::{Name, Text, Url};
use ff_tree::{Doc, Expr, Handler};

/// Appends an expression.
#[cycle(print)]
pub(crate) fn print_expr(expr: &Expr, out: &mut Printer)
    ensures { Prints out.old out.new (spelled (expr_item expr.now)) }
{
    match expr {
        Expr::Lit(lit) => out.lit(lit),
        Expr::Var(name) => out.bytes(name.text().as_bytes()),
        Expr::Let(name, body) => print_binding(ExprHead::Let, name, body.get(), out),
        Expr::Set(name, body) => print_binding(ExprHead::Set, name, body.get(), out),
        Expr::If(test, yes, no) => {
            print_first(ExprHead::If, test.get(), out);
            print_part(yes.get(), out);
            print_last(no.get(), out);
        }
        Expr::While(test, body) => {
            print_first(ExprHead::While, test.get(), out);
            print_last(body.get(), out);
        }
        Expr::Do(parts) => print_list(ExprHead::Do, parts.as_slice(), out),
        Expr::And(left, right) => {
            print_first(ExprHead::And, left.get(), out);
            print_last(right.get(), out);
        }
        Expr::Or(first, second) => {
            print_first(ExprHead::Or, first.get(), out);
            print_last(second.get(), out);
        }
        Expr::Make(params, body) => print_function(params.as_slice(), body.get(), out),
        Expr::Apply(function, args) => {
            print_first(ExprHead::Apply, function.get(), out);
            print_parts(args.as_slice(), out);
            out.close_list();
        }
        Expr::Tree(doc) => print_new(doc, out),
        Expr::Prim(op, args) => print_list(ExprHead::Prim(*op), args.as_slice(), out),
    }
}

/// Appends a list of a variable and an expression.
#[cycle(print)]
fn print_binding(head: ExprHead, name: &Name, body: &Expr, out: &mut Printer)
    ensures { Prints out.old out.new (spelled
        (parens (word (expr_word head) ∷ word name.now ∷ expr_item body.now ∷ []))) }
{
    out.open(head);
    out.name(name);
    print_part(body, out);
    out.close_list();
}

/// Appends the head of a list and its first part.
#[cycle(print)]
fn print_first(head: ExprHead, first: &Expr, out: &mut Printer)
    ensures { Prints out.old out.new ((40 ∷ expr_word head) ++ after_blank (expr_item first.now)) }
{
    out.open(head);
    print_part(first, out);
}

/// Appends the last part of a list and its end.
#[cycle(print)]
fn print_last(last: &Expr, out: &mut Printer)
    ensures { Prints out.old out.new (ending (expr_item last.now ∷ [])) }
{
    print_part(last, out);
    out.close_list();
}

/// Appends a list of expressions.
#[cycle(print)]
fn print_list(head: ExprHead, parts: &[Expr], out: &mut Printer)
    ensures { Prints out.old out.new (spelled
        (parens (word (expr_word head) ∷ map expr_item parts.now))) }
{
    out.open(head);
    print_parts(parts, out);
    out.close_list();
}

/// Appends a function: its parameters and its body.
#[cycle(print)]
fn print_function(params: &[Name], body: &Expr, out: &mut Printer)
    ensures { Prints out.old out.new (spelled
        (parens (word (expr_word expr_head.Make) ∷ parens (map word params.now) ∷ expr_item body.now
        ∷ []))) }
{
    out.open(ExprHead::Make);
    print_params(params, out);
    print_part(body, out);
    out.close_list();
}

#[cycle(print)]
fn print_new(doc: &Doc, out: &mut Printer)
    ensures { Prints out.old out.new (spelled
        (parens (word (expr_word expr_head.Tree) ∷ doc_item doc.now ∷ []))) }
{
    out.open(ExprHead::Tree);
    print_child(doc, out);
    out.close_list();
}

/// Appends a blank and an expression.
#[cycle(print)]
pub(crate) fn print_part(expr: &Expr, out: &mut Printer)
    ensures { Prints out.old out.new (after_blank (expr_item expr.now)) }
{
    out.bytes(b" ");
    print_expr(expr, out);
}

/// Appends expressions with a blank before each.
#[cycle(print)]
fn print_parts(parts: &[Expr], out: &mut Printer)
    ensures { Prints out.old out.new (each_after_blank expr_item parts.now) }
{
    for part in parts {
        print_part(part, out);
    }
}

/// Appends a handler.
#[cycle(print)]
fn print_handler(handler: &Handler, out: &mut Printer)
    ensures { Prints out.old out.new (spelled (handler_item handler.now)) }
{
    print_with_parameter(&handler.param, handler.body.get(), out);
}

/// Appends a function of one parameter.
#[cycle(print)]
fn print_with_parameter(param: &Name, body: &Expr, out: &mut Printer)
    ensures { Prints out.old out.new (spelled
        (parens (word (handler_word handler_head.Make) ∷ parens (word param.now ∷ [])
        ∷ expr_item body.now ∷ []))) }
{
    out.open(HandlerHead::Make);
    out.parameter(param);
    print_part(body, out);
    out.close_list();
}

/// Appends handlers with a blank before each.
#[cycle(print)]
fn print_handlers(handlers: &[Handler], out: &mut Printer)
    ensures { Prints out.old out.new (each_after_blank handler_item handlers.now) }
{
    for handler in handlers {
        out.bytes(b" ");
        print_handler(handler, out);
    }
}

/// Appends a document.
#[cycle(print)]
pub(crate) fn print_doc(doc: &Doc, out: &mut Printer)
    ensures { Prints out.old out.new (spelled (doc_item doc.now)) }
{
    match doc {
        Doc::Text(name, text) => print_text(name, text, out),
        Doc::Link(name, url, label) => print_link(name, url, label, out),
        Doc::TextBox(name, text, handlers) => {
            print_field(DocHead::TextBox, name, text, handlers.as_slice(), out)
        }
        Doc::Button(name, label, handlers) => {
            print_field(DocHead::Button, name, label, handlers.as_slice(), out)
        }
        Doc::Script(name, body) => print_script(name, body.get(), out),
        Doc::Src(name, url) => print_src(name, url, out),
        Doc::Div(name, parts) => print_div(name, parts.as_slice(), out),
    }
}

/// Appends a text box or a button: its name, its text and its handlers.
#[cycle(print)]
fn print_field(head: DocHead, name: &Name, text: &Text, handlers: &[Handler], out: &mut Printer)
    ensures { Prints out.old out.new (spelled
        (parens (word (doc_word head) ∷ word name.now ∷ string text.now
        ∷ map handler_item handlers.now))) }
{
    out.open(head);
    out.name(name);
    out.string(text);
    print_handlers(handlers, out);
    out.close_list();
}

#[cycle(print)]
fn print_script(name: &Name, body: &Expr, out: &mut Printer)
    ensures { Prints out.old out.new (spelled
        (parens (word (doc_word doc_head.Script) ∷ word name.now ∷ expr_item body.now ∷ []))) }
{
    out.open(DocHead::Script);
    out.name(name);
    print_part(body, out);
    out.close_list();
}

#[cycle(print)]
fn print_div(name: &Name, parts: &[Doc], out: &mut Printer)
    ensures { Prints out.old out.new (spelled
        (parens (word (doc_word doc_head.Div) ∷ word name.now ∷ map doc_item parts.now))) }
{
    out.open(DocHead::Div);
    out.name(name);
    print_docs(parts, out);
    out.close_list();
}

/// Appends a blank and a document.
#[cycle(print)]
fn print_child(doc: &Doc, out: &mut Printer)
    ensures { Prints out.old out.new (after_blank (doc_item doc.now)) }
{
    out.bytes(b" ");
    print_doc(doc, out);
}

/// Appends documents with a blank before each.
#[cycle(print)]
pub(crate) fn print_docs(docs: &[Doc], out: &mut Printer)
    ensures { Prints out.old out.new (each_after_blank doc_item docs.now) }
{
    for doc in docs {
        print_child(doc, out);
    }
}

fn print_text(name: &Name, text: &Text, out: &mut Printer)
    ensures { Prints out.old out.new (spelled
        (parens (word (doc_word doc_head.Text) ∷ word name.now ∷ string text.now ∷ []))) }
{
    out.open(DocHead::Text);
    out.name(name);
    out.string(text);
    out.close_list();
}

fn print_link(name: &Name, url: &Url, label: &Text, out: &mut Printer)
    ensures { Prints out.old out.new (spelled
        (parens (word (doc_word doc_head.Link) ∷ word name.now ∷ address url.now ∷ string label.now
        ∷ []))) }
{
    out.open(DocHead::Link);
    out.name(name);
    out.address(url);
    out.string(label);
    out.close_list();
}

fn print_src(name: &Name, url: &Url, out: &mut Printer)
    ensures { Prints out.old out.new (spelled
        (parens (word (doc_word doc_head.Src) ∷ word name.now ∷ address url.now ∷ []))) }
{
    out.open(DocHead::Src);
    out.name(name);
    out.address(url);
    out.close_list();
}

/// Appends a list of names and the blank before it.
fn print_params(params: &[Name], out: &mut Printer)
    ensures { Prints out.old out.new (after_blank (parens (map word params.now))) }
{
    match params.split_first() {
        None => out.bytes(b" ()"),
        Some((first, rest)) => print_some_params(first, rest, out),
    }
}

fn print_some_params(first: &Name, rest: &[Name], out: &mut Printer)
    ensures { Prints out.old out.new (after_blank (parens (word first.now ∷ map word rest.now))) }
{
    out.bytes(b" (");
    out.bytes(first.text().as_bytes());
    print_names(rest, out);
    out.close_list();
}

/// Appends names with a blank before each.
fn print_names(names: &[Name], out: &mut Printer)
    ensures { Prints out.old out.new (each_after_blank word names.now) }
{
    for name in names {
        out.name(name);
    }
}
