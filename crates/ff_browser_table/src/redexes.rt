//! Redexes and values as words, which are printed.

use ff_frames::Redex;
use ff_value::{Name, Val, Worded};
use std::io;

/// Prints the redex, with its values.
pub fn redex<R: Print>(rt: &R, redex: Redex<'_>) -> io::Result<()> {
    match redex {
        Redex::Local => print!(rt; "local"),
        Redex::Test(test) => tested(rt, test),
        Redex::Var(name) => print!(rt; "{}", name.text().as_str()),
        Redex::Let(name, value) => bound(rt, "let", name, value),
        Redex::Set(name, value) => bound(rt, "set", name, value),
        Redex::Make(_, _) => print!(rt; "(fn ..)"),
        Redex::Apply(_, args) => list(rt, "call fn", args),
        Redex::Prim(op, args) => list(rt, op.word(), args),
        Redex::Tree(_) => print!(rt; "(new ..)"),
    }
}

/// Prints a value.
pub fn value<R: Print>(rt: &R, value: &Val) -> io::Result<()> {
    match value {
        Val::Null => print!(rt; "null"),
        Val::Bool(b) => print!(rt; "{b}"),
        Val::Num(n) => print!(rt; "{n}"),
        Val::Str(text) => print!(rt; "{:?}", text.as_str()),
        Val::Win(window) => print!(rt; "window {}", window.0),
        Val::Node(node) => print!(rt; "node {}", node.0),
        Val::Code(_) => print!(rt; "fn"),
    }
}

fn tested<R: Print>(rt: &R, test: &Val) -> io::Result<()> {
    print!(rt; "(if ")?;
    value(rt, test)?;
    print!(rt; " ..)")
}

fn bound<R: Print>(rt: &R, head: &str, name: &Name, part: &Val) -> io::Result<()> {
    print!(rt; "({head} {} ", name.text().as_str())?;
    value(rt, part)?;
    print!(rt; ")")
}

fn list<R: Print>(rt: &R, head: &str, parts: &[Val]) -> io::Result<()> {
    print!(rt; "({head}")?;
    for part in parts {
        print!(rt; " ")?;
        value(rt, part)?;
    }
    print!(rt; ")")
}
