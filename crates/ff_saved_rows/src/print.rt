//! Rows, printed without their newlines.
ghost use Rattle.std.specs.Prelude.{◌≡◌, ◌<◌, ◌++◌, ◌∷◌, [], All, filter, map, codes};
ghost use Rattle.ff_text.specs.Printed.{spelled};
ghost use Rattle.ff_forms.specs.Canonical.{word, string, parens, address, expr_item};
ghost use Rattle.ff_lattice.specs.Order.{name, size};
ghost use Rattle.ff_lattice.specs.LevelSet.{has};
ghost use Rattle.ff_lattice.specs.declared.names.TheConstants.{MOST_LEVELS};
ghost use Rattle.ff_machine.specs.Shapes.{kind_of};
ghost use Rattle.ff_machine.specs.Kinds.{kind_word};
ghost use Rattle.ff_trace.specs.Printed.{number as number_item, joined};
ghost use Rattle.ff_saved_rows.specs.Rows.{truth_item, act_item, win_item, name_item, val_item, code_item, dst_item, shape_parts, entry_items};
ghost use Rattle.ff_printing.specs.Pieces.{Prints, after_blank, each_after_blank};

use ff_lattice::{Lattice, LevelSet};
use ff_machine::{Dst, Entry, Shape};
use ff_name::{Level, Name, Text, Url};
use ff_printing::Printer;
use ff_records::{AskRec, CookieRec, Variable, WinRec};
use ff_tree::Expr;
use ff_value::{ActId, Code, NodeId, PageId, Val, WinId};

pub(crate) fn print_policy(text: &Text, out: &mut Printer)
    ensures { Prints out.old out.new (joined (word (codes "policy") ∷ string text.now ∷ [])) }
{
    out.bytes(b"policy");
    out.string(text);
}

pub(crate) fn print_mass(mass: u64, out: &mut Printer)
    ensures { Prints out.old out.new (joined (word (codes "mass") ∷ number_item mass ∷ [])) }
{
    out.bytes(b"mass");
    out.number(mass);
}

pub(crate) fn print_act(parent: Option<ActId>, out: &mut Printer)
    ensures { Prints out.old out.new (joined (word (codes "act") ∷ act_item parent ∷ [])) }
{
    out.bytes(b"act");
    print_parent(parent, out);
}

/// Appends a blank and the number of an activation, or `none`.
fn print_parent(parent: Option<ActId>, out: &mut Printer)
    ensures { Prints out.old out.new (after_blank (act_item parent)) }
{
    match parent {
        Some(act) => out.number(u64::from(act.0)),
        None => out.word(b"none"),
    }
}

pub(crate) fn print_var(var: &Variable, out: &mut Printer)
    ensures { Prints out.old out.new (joined
        (word (codes "var") ∷ word var.now.name ∷ val_item var.now.value ∷ [])) }
{
    out.bytes(b"var");
    out.word(var.name.as_bytes());
    print_val(&var.value, out);
}

/// Appends a blank and a value.
fn print_val(val: &Val, out: &mut Printer)
    ensures { Prints out.old out.new (after_blank (val_item val.now)) }
{
    match val {
        Val::Null => out.word(b"null"),
        Val::Bool(truth) => out.truth(*truth),
        Val::Num(number) => out.signed(*number),
        Val::Str(text) => out.string(text),
        Val::Win(win) => print_reference(b"win", u64::from(win.0), out),
        Val::Node(node) => print_reference(b"node", u64::from(node.0), out),
        Val::Code(code) => print_code(code, out),
    }
}

/// Appends a blank and a list of a word and a number.
fn print_reference(head: &[u8], number: u64, out: &mut Printer)
    ensures { Prints out.old out.new (after_blank
        (parens (word head.now ∷ number_item number ∷ []))) }
{
    out.bytes(b" (");
    out.bytes(head);
    out.number(number);
    out.bytes(b")");
}

/// Appends a blank and a function.
fn print_code(code: &Code, out: &mut Printer)
    ensures { Prints out.old out.new (after_blank (code_item code.now)) }
{
    out.bytes(b" (code");
    out.number(u64::from(code.env.0));
    print_params(code.params.as_slice(), out);
    out.expr(code.body.get());
    out.bytes(b")");
}

/// Appends a blank and a list of names.
fn print_params(names: &[Name], out: &mut Printer)
    ensures { Prints out.old out.new (after_blank (parens (map word names.now))) }
{
    match names.split_first() {
        Some((first, rest)) => print_some_params(first, rest, out),
        None => out.bytes(b" ()"),
    }
}

fn print_some_params(first: &Name, rest: &[Name], out: &mut Printer)
    ensures { Prints out.old out.new (after_blank (parens (word first.now ∷ map word rest.now))) }
{
    out.bytes(b" (");
    out.bytes(first.as_bytes());
    print_names(rest, out);
    out.bytes(b")");
}

/// Appends names with a blank before each.
fn print_names(names: &[Name], out: &mut Printer)
    ensures { Prints out.old out.new (each_after_blank word names.now) }
{
    for name in names {
        out.word(name.as_bytes());
    }
}

pub(crate) fn print_node(shape: &Shape, out: &mut Printer)
    ensures { Prints out.old out.new (joined
        (word (codes "node") ∷ word (kind_word (kind_of shape.now)) ∷ shape_parts shape.now)) }
{
    match shape {
        Shape::Page(page) => print_root(*page, out),
        Shape::Text(name, text) => print_texts(b"text", name, text, out),
        Shape::Link(name, url, label) => print_link(name, url, label, out),
        Shape::TextBox(name, text) => print_texts(b"box", name, text, out),
        Shape::Button(name, label) => print_texts(b"button", name, label, out),
        Shape::Script(name, started, body) => print_script(name, *started, body.get(), out),
        Shape::Src(name, started, url) => print_src(name, *started, url, out),
        Shape::Div(name) => print_div(name, out),
    }
}

fn print_root(page: PageId, out: &mut Printer)
    ensures { Prints out.old out.new (joined
        (word (codes "node") ∷ word (codes "page") ∷ number_item page.0 ∷ [])) }
{
    out.bytes(b"node");
    out.word(b"page");
    out.number(u64::from(page.0));
}

/// Appends a node that has a name and a text.
fn print_texts(kind: &[u8], name: &Name, text: &Text, out: &mut Printer)
    ensures { Prints out.old out.new (joined
        (word (codes "node") ∷ word kind.now ∷ word name.now ∷ string text.now ∷ [])) }
{
    out.bytes(b"node");
    out.word(kind);
    out.word(name.as_bytes());
    out.string(text);
}

fn print_link(name: &Name, url: &Url, label: &Text, out: &mut Printer)
    ensures { Prints out.old out.new (joined
        (word (codes "node") ∷ word (codes "link") ∷ word name.now ∷ address url.now
        ∷ string label.now ∷ [])) }
{
    out.bytes(b"node");
    out.word(b"link");
    out.word(name.as_bytes());
    out.address(url);
    out.string(label);
}

fn print_script(name: &Name, started: bool, body: &Expr, out: &mut Printer)
    ensures { Prints out.old out.new (joined
        (word (codes "node") ∷ word (codes "script") ∷ word name.now ∷ truth_item started
        ∷ expr_item body.now ∷ [])) }
{
    out.bytes(b"node");
    out.word(b"script");
    out.word(name.as_bytes());
    out.truth(started);
    out.expr(body);
}

fn print_src(name: &Name, started: bool, url: &Url, out: &mut Printer)
    ensures { Prints out.old out.new (joined
        (word (codes "node") ∷ word (codes "src") ∷ word name.now ∷ truth_item started
        ∷ address url.now ∷ [])) }
{
    out.bytes(b"node");
    out.word(b"src");
    out.word(name.as_bytes());
    out.truth(started);
    out.address(url);
}

fn print_div(name: &Name, out: &mut Printer)
    ensures { Prints out.old out.new (joined
        (word (codes "node") ∷ word (codes "div") ∷ word name.now ∷ [])) }
{
    out.bytes(b"node");
    out.word(b"div");
    out.word(name.as_bytes());
}

pub(crate) fn print_on(code: &Code, out: &mut Printer)
    ensures { Prints out.old out.new (joined (word (codes "on") ∷ code_item code.now ∷ [])) }
{
    out.bytes(b"on");
    print_code(code, out);
}

pub(crate) fn print_kids(kids: &[NodeId], out: &mut Printer)
    ensures { Prints out.old out.new (joined
        (word (codes "kids") ∷ map (λ n. number_item n.0) kids.now)) }
{
    out.bytes(b"kids");
    print_nodes(kids, out);
}

/// Appends numbers of nodes with a blank before each.
fn print_nodes(nodes: &[NodeId], out: &mut Printer)
    ensures { Prints out.old out.new (each_after_blank (λ n. number_item n.0) nodes.now) }
{
    for node in nodes {
        out.number(u64::from(node.0));
    }
}

pub(crate) fn print_page(
    url: &Url,
    win: WinId,
    root: NodeId,
    act: ActId,
    next: u32,
    out: &mut Printer,
)
    ensures { Prints out.old out.new (joined
        (word (codes "page") ∷ address url.now ∷ number_item win.0 ∷ number_item root.0
        ∷ number_item act.0 ∷ number_item next ∷ [])) }
{
    out.bytes(b"page");
    out.address(url);
    out.number(u64::from(win.0));
    out.number(u64::from(root.0));
    out.number(u64::from(act.0));
    out.number(u64::from(next));
}

pub(crate) fn print_entry(entry: &Entry, out: &mut Printer)
    ensures { Prints out.old out.new (joined (entry_items entry.now)) }
{
    match entry {
        Entry::Ready(body) => print_ready(body.get(), out),
        Entry::Wait(slot) => print_wait(*slot, out),
    }
}

fn print_ready(body: &Expr, out: &mut Printer)
    ensures { Prints out.old out.new (joined (word (codes "ready") ∷ expr_item body.now ∷ [])) }
{
    out.bytes(b"ready");
    out.expr(body);
}

fn print_wait(slot: u32, out: &mut Printer)
    ensures { Prints out.old out.new (joined (word (codes "wait") ∷ number_item slot ∷ [])) }
{
    out.bytes(b"wait");
    out.number(u64::from(slot));
}

pub(crate) fn print_win(rec: &WinRec, out: &mut Printer)
    ensures { Prints out.old out.new (joined
        (word (codes "win") ∷ number_item rec.now.page.0 ∷ win_item rec.now.opener
        ∷ name_item rec.now.name ∷ [])) }
{
    out.bytes(b"win");
    out.number(u64::from(rec.page.0));
    print_opener(rec.opener, out);
    print_win_name(&rec.name, out);
}

/// Appends a blank and the number of a window, or `none`.
fn print_opener(opener: Option<WinId>, out: &mut Printer)
    ensures { Prints out.old out.new (after_blank (win_item opener)) }
{
    match opener {
        Some(win) => out.number(u64::from(win.0)),
        None => out.word(b"none"),
    }
}

/// Appends a blank and the name of a window, or `none`.
fn print_win_name(name: &Option<Text>, out: &mut Printer)
    ensures { Prints out.old out.new (after_blank (name_item name.now)) }
{
    match name {
        Some(text) => out.string(text),
        None => out.word(b"none"),
    }
}

pub(crate) fn print_open(wins: &[WinId], out: &mut Printer)
    ensures { Prints out.old out.new (joined
        (word (codes "open") ∷ map (λ w. number_item w.0) wins.now)) }
{
    out.bytes(b"open");
    print_wins(wins, out);
}

/// Appends numbers of windows with a blank before each.
fn print_wins(wins: &[WinId], out: &mut Printer)
    ensures { Prints out.old out.new (each_after_blank (λ w. number_item w.0) wins.now) }
{
    for win in wins {
        out.number(u64::from(win.0));
    }
}

pub(crate) fn print_cookie(rec: &CookieRec, out: &mut Printer)
    ensures { Prints out.old out.new (joined
        (word (codes "cookie") ∷ word rec.now.domain ∷ string rec.now.key ∷ string rec.now.value
        ∷ [])) }
{
    out.bytes(b"cookie");
    out.word(rec.domain.as_bytes());
    out.string(&rec.key);
    out.string(&rec.value);
}

pub(crate) fn print_ask(rec: &AskRec, out: &mut Printer)
    ensures { Prints out.old out.new (joined
        (word (codes "ask") ∷ word rec.now.domain ∷ string rec.now.pending.uri
        ∷ dst_item rec.now.pending.dst ∷ [])) }
{
    out.bytes(b"ask");
    out.word(rec.domain.as_bytes());
    out.string(&rec.pending.uri);
    print_dst(&rec.pending.dst, out);
}

/// Appends a blank and what a reply is for.
fn print_dst(dst: &Dst, out: &mut Printer)
    ensures { Prints out.old out.new (after_blank (dst_item dst.now)) }
{
    match dst {
        Dst::Window(win) => print_reference(b"win", u64::from(win.0), out),
        Dst::Slot(page, slot) => print_slot(*page, *slot, out),
        Dst::Call(page, code) => print_call(*page, code, out),
    }
}

fn print_slot(page: PageId, slot: u32, out: &mut Printer)
    ensures { Prints out.old out.new (after_blank
        (parens (word (codes "slot") ∷ number_item page.0 ∷ number_item slot ∷ []))) }
{
    out.bytes(b" (slot");
    out.number(u64::from(page.0));
    out.number(u64::from(slot));
    out.bytes(b")");
}

fn print_call(page: PageId, code: &Code, out: &mut Printer)
    ensures { Prints out.old out.new (after_blank
        (parens (word (codes "call") ∷ number_item page.0 ∷ code_item code.now ∷ []))) }
{
    out.bytes(b" (call");
    out.number(u64::from(page.0));
    print_code(code, out);
    out.bytes(b")");
}

pub(crate) fn print_class(levels: LevelSet, lattice: &Lattice, out: &mut Printer)
    requires { All (λ l. l < size lattice.now) levels }
    ensures { Prints out.old out.new (joined
        (word (codes "class") ∷ map (λ l. word (name lattice.now l)) levels)) }
{
    out.bytes(b"class");
    print_levels(levels, lattice, out);
}

/// Appends the names of the levels with a blank before each.
fn print_levels(levels: LevelSet, lattice: &Lattice, out: &mut Printer)
    requires { All (λ l. l < size lattice.now) levels }
    ensures { Prints out.old out.new (each_after_blank (λ l. word (name lattice.now l)) levels) }
{
    let _known = levels.len();
    for number in 0..lattice.size() {
        print_member(levels, Level(number), lattice, out);
    }
}

/// Appends a blank and the name of a level, if it is one of the levels.
fn print_member(levels: LevelSet, level: Level, lattice: &Lattice, out: &mut Printer)
    requires there { level.0 < size lattice.now }
    requires few { level.0 < MOST_LEVELS }
    ensures { Prints out.old out.new (each_after_blank (λ l. word (name lattice.now l))
        (filter (has levels) (level.0 ∷ []))) }
{
    if levels.has(level) {
        out.word(lattice.name(level).as_bytes());
    }
}
