//! The lines of records, printed. Once the printer has found no memory nothing more is printed.
ghost use Rattle.std.specs.Prelude.{◌<◌, ◌∷◌, [], All, map, cond};
ghost use Rattle.ff_lattice.specs.Order.{Order, size};
ghost use Rattle.ff_machine.specs.Shapes.{may_have_children};
ghost use Rattle.ff_printing.specs.Pieces.{Prints};
ghost use Rattle.ff_saved_rows.specs.Rows.{row_line, rows_text, act_rows, node_rows, page_rows};
ghost use Rattle.ff_saved_rows.specs.declared.row.Row.TheVariants as row;

use crate::print::{
    print_act, print_ask, print_class, print_cookie, print_entry, print_kids, print_mass,
    print_node, print_on, print_open, print_page, print_policy, print_var, print_win,
};
use ff_lattice::{Lattice, LevelSet};
use ff_machine::{Entry, Shape};
use ff_name::Text;
use ff_printing::Printer;
use ff_records::{ActRec, AskRec, CookieRec, NodeRec, PageRec, Variable, WinIds, WinRec};
use ff_value::{Code, Ids};

/// Appends the first line of a saved text.
pub fn put_head(out: &mut Printer)
    ensures { (order : Order) → Prints out.old out.new (row_line order row.Head) }
{
    out.bytes(b"ffox-saved 1\n");
}

/// Appends the line of a policy, as it is printed.
pub fn put_policy(text: &Text, out: &mut Printer)
    ensures { (order : Order) → Prints out.old out.new (row_line order (row.Policy text.now)) }
{
    print_policy(text, out);
    out.bytes(b"\n");
}

/// Appends the line of the levels of a class.
pub fn put_class(levels: LevelSet, lattice: &Lattice, out: &mut Printer)
    requires { All (λ l. l < size lattice.now) levels }
    ensures { Prints out.old out.new (row_line lattice.now (row.Class levels)) }
{
    print_class(levels, lattice, out);
    out.bytes(b"\n");
}

/// Appends the line of the mass of the stores.
pub fn put_mass(mass: u64, out: &mut Printer)
    ensures { (order : Order) → Prints out.old out.new (row_line order (row.Mass mass)) }
{
    print_mass(mass, out);
    out.bytes(b"\n");
}

/// Appends the lines of an activation and its variables.
pub fn put_act(rec: &ActRec, out: &mut Printer)
    ensures { (order : Order) → Prints out.old out.new (rows_text order (act_rows rec.now)) }
{
    print_act(rec.parent, out);
    out.bytes(b"\n");
    put_vars(rec.vars.as_slice(), out);
}

fn put_vars(vars: &[Variable], out: &mut Printer)
    ensures { (order : Order) → Prints out.old out.new (rows_text order (map row.Var vars.now)) }
{
    for var in vars {
        print_var(var, out);
        out.bytes(b"\n");
    }
}

/// Appends the lines of a node, its handlers, and its children where its kind may have some.
pub fn put_node(rec: &NodeRec, out: &mut Printer)
    ensures { (order : Order) → Prints out.old out.new (rows_text order (node_rows rec.now)) }
{
    print_node(&rec.shape, out);
    out.bytes(b"\n");
    put_handlers(rec.on.as_slice(), out);
    put_kids(&rec.shape, &rec.kids, out);
}

fn put_handlers(codes: &[Code], out: &mut Printer)
    ensures { (order : Order) → Prints out.old out.new (rows_text order (map row.On codes.now)) }
{
    for code in codes {
        print_on(code, out);
        out.bytes(b"\n");
    }
}

fn put_kids(shape: &Shape, kids: &Ids, out: &mut Printer)
    ensures { (order : Order) → Prints out.old out.new
        (rows_text order (cond (may_have_children shape.now) (row.Kids kids.now ∷ []) [])) }
{
    match shape {
        Shape::Page(_) | Shape::Div(_) => {
            print_kids(kids.as_slice(), out);
            out.bytes(b"\n");
        }
        _ => (),
    }
}

/// Appends the lines of a page and its queue.
pub fn put_page(rec: &PageRec, out: &mut Printer)
    ensures { (order : Order) → Prints out.old out.new (rows_text order (page_rows rec.now)) }
{
    print_page(&rec.url, rec.win, rec.root, rec.act, rec.next, out);
    out.bytes(b"\n");
    put_queue(rec.queue.as_slice(), out);
}

fn put_queue(entries: &[Entry], out: &mut Printer)
    ensures { (order : Order) → Prints out.old out.new
        (rows_text order (map row.Queued entries.now)) }
{
    for entry in entries {
        print_entry(entry, out);
        out.bytes(b"\n");
    }
}

/// Appends the line of a window.
pub fn put_win(rec: &WinRec, out: &mut Printer)
    ensures { (order : Order) → Prints out.old out.new (row_line order (row.Win rec.now)) }
{
    print_win(rec, out);
    out.bytes(b"\n");
}

/// Appends the line of the open windows.
pub fn put_open(wins: &WinIds, out: &mut Printer)
    ensures { (order : Order) → Prints out.old out.new (row_line order (row.Open wins.now)) }
{
    print_open(wins.as_slice(), out);
    out.bytes(b"\n");
}

/// Appends the lines of cookies.
pub fn put_cookies(recs: &[CookieRec], out: &mut Printer)
    ensures { (order : Order) → Prints out.old out.new (rows_text order (map row.Cookie recs.now)) }
{
    for rec in recs {
        print_cookie(rec, out);
        out.bytes(b"\n");
    }
}

/// Appends the lines of pending requests.
pub fn put_asks(recs: &[AskRec], out: &mut Printer)
    ensures { (order : Order) → Prints out.old out.new (rows_text order (map row.Ask recs.now)) }
{
    for rec in recs {
        print_ask(rec, out);
        out.bytes(b"\n");
    }
}

/// Appends the last line of a saved text.
pub fn put_end(out: &mut Printer)
    ensures { (order : Order) → Prints out.old out.new (row_line order row.End) }
{
    out.bytes(b"end\n");
}
