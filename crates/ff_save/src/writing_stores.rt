//! The stores of one browser, written as rows.
ghost use Rattle.std.specs.Prelude.{◌<◌, ◌∷◌, [], length, map, flat_map};
ghost use Rattle.ff_lattice.specs.Order.{Order};
ghost use Rattle.ff_machine.specs.Nodes.{node_at};
ghost use Rattle.ff_machine.specs.Windows.{page_at, window_at};
ghost use Rattle.ff_printing.specs.Pieces.{Prints};
ghost use Rattle.ff_records.specs.Records.{act_recs, node_rec, node_recs, page_rec, win_rec, cookie_recs, ask_recs};
ghost use Rattle.ff_saved_rows.specs.Recs.{stores_recs};
ghost use Rattle.ff_saved_rows.specs.Rows.{row_line, rows_text, act_rows, node_rows, page_rows, stores_rows};
ghost use Rattle.ff_saved_rows.specs.declared.row.Row.TheVariants as row;

use ff_net::{Jar, Requests};
use ff_nodes::Nodes;
use ff_records::ActRec;
use ff_saved_rows::{
    Printer, put_act, put_asks, put_cookies, put_mass, put_node, put_open, put_page, put_win,
};
use ff_stores::Stores;
use ff_value::{NodeId, PageId, WinId};
use ff_windows::Windows;

/// Appends the rows of one browser's stores. Where memory runs out the printer says so.
pub fn put_stores(stores: &Stores, out: &mut Printer)
    ensures { (order : Order) → Prints out.old out.new
        (rows_text order (stores_rows (stores_recs stores.now))) }
{
    put_mass(stores.mass(), out);
    write_acts(stores.windows(), out);
    write_nodes(stores.nodes(), out);
    write_pages(stores.windows(), out);
    write_wins(stores.windows(), out);
    write_open(stores.windows(), out);
    write_cookies(stores.jar(), out);
    write_asks(stores.requests(), out);
}

fn write_acts(windows: &Windows, out: &mut Printer)
    ensures { (order : Order) → Prints out.old out.new
        (rows_text order (flat_map act_rows (act_recs windows.now.acts))) }
{
    match windows.act_records() {
        Ok(recs) => put_acts(recs.as_slice(), out),
        Err(_) => out.fail(),
    }
}

fn put_acts(recs: &[ActRec], out: &mut Printer)
    ensures { (order : Order) → Prints out.old out.new
        (rows_text order (flat_map act_rows recs.now)) }
{
    for rec in recs {
        put_act(rec, out);
    }
}

fn write_nodes(nodes: &Nodes, out: &mut Printer)
    ensures { (order : Order) → Prints out.old out.new
        (rows_text order (flat_map node_rows (node_recs nodes.now))) }
{
    for number in 0..nodes.len() {
        write_node(nodes, NodeId(number), out);
    }
}

fn write_node(nodes: &Nodes, n: NodeId, out: &mut Printer)
    requires { n.0 < length nodes.now }
    ensures { (order : Order) → Prints out.old out.new
        (rows_text order (node_rows (node_rec (node_at nodes.now n)))) }
{
    match nodes.node_record(n) {
        Ok(rec) => put_node(&rec, out),
        Err(_) => out.fail(),
    }
}

fn write_pages(windows: &Windows, out: &mut Printer)
    ensures { (order : Order) → Prints out.old out.new
        (rows_text order (flat_map page_rows (map page_rec windows.now.pages))) }
{
    for number in 0..windows.counts().pages {
        write_page(windows, PageId(number), out);
    }
}

fn write_page(windows: &Windows, n: PageId, out: &mut Printer)
    requires { n.0 < length windows.now.pages }
    ensures { (order : Order) → Prints out.old out.new
        (rows_text order (page_rows (page_rec (page_at windows.now n)))) }
{
    match windows.page_record(n) {
        Ok(rec) => put_page(&rec, out),
        Err(_) => out.fail(),
    }
}

fn write_wins(windows: &Windows, out: &mut Printer)
    ensures { (order : Order) → Prints out.old out.new
        (rows_text order (map row.Win (map win_rec windows.now.windows))) }
{
    for number in 0..windows.counts().wins {
        write_win(windows, WinId(number), out);
    }
}

fn write_win(windows: &Windows, n: WinId, out: &mut Printer)
    requires { n.0 < length windows.now.windows }
    ensures { (order : Order) → Prints out.old out.new
        (rows_text order (row.Win (win_rec (window_at windows.now n)) ∷ [])) }
{
    match windows.win_record(n) {
        Ok(rec) => put_win(&rec, out),
        Err(_) => out.fail(),
    }
}

fn write_open(windows: &Windows, out: &mut Printer)
    ensures { (order : Order) → Prints out.old out.new
        (row_line order (row.Open windows.now.opened)) }
{
    match windows.open_windows() {
        Ok(wins) => put_open(&wins, out),
        Err(_) => out.fail(),
    }
}

fn write_cookies(jar: &Jar, out: &mut Printer)
    ensures { (order : Order) → Prints out.old out.new
        (rows_text order (map row.Cookie (cookie_recs jar.now))) }
{
    match jar.records() {
        Ok(recs) => put_cookies(recs.as_slice(), out),
        Err(_) => out.fail(),
    }
}

fn write_asks(requests: &Requests, out: &mut Printer)
    ensures { (order : Order) → Prints out.old out.new
        (rows_text order (map row.Ask (ask_recs requests.now))) }
{
    match requests.records() {
        Ok(recs) => put_asks(recs.as_slice(), out),
        Err(_) => out.fail(),
    }
}
