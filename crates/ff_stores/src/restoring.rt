//! Stores that are made of their parts.
ghost use Rattle.std.specs.Prelude.{◌≡◌, ◌<◌, ◌↔◌, IfOk, IsOk, IsTrue, length};
ghost use Rattle.ff_machine.specs.declared.records.Shape.TheVariants as shape;
ghost use Rattle.ff_machine.specs.Nodes.{node_at};
ghost use Rattle.ff_machine.specs.Alone.{AreNodes, AreRequests, AreWindows};
ghost use Rattle.ff_machine.specs.Valid.{AreQueued, AreRooted, IsStores};
ghost use Rattle.ff_records.specs.Restored.{Restores};
ghost use Rattle.ff_stores.specs.Restored.{AreRoots, AreUntouched, DoRefer, HaveRoots, RootsLive, parts_of, untouched};

use crate::stores::Stores;
use crate::touched::Touched;
use ff_name::NoMemory;
use ff_net::{Jar, Requests};
use ff_nodes::Nodes;
use ff_operators::MOST_MASS;
use ff_records::Made;
use ff_value::{NodeId, PageId};
use ff_windows::Windows;
use std::alloc::Global;

impl Stores {
    /// The stores of these parts, with no page touched. `None` exactly where the parts aren't valid
    /// together: one refers to what another one hasn't, a page has not its root, queues hold more
    /// than scripts were started, or the mass is over its limit. It takes no memory, and is never
    /// refused.
    pub fn restore(
        alloc: Global,
        nodes: Nodes,
        windows: Windows,
        jar: Jar,
        requests: Requests,
        mass: u64,
    ) -> Result<Option<Stores>, NoMemory>
        ensures never { IsOk result }
        ensures value { IfOk result (Restores AreUntouched parts_of
            (record {
              nodes = nodes;
              windows = windows;
              jar = jar;
              requests = requests;
              mass =
                  mass;
            })) }
    {
        if !fit(&nodes, &windows, &jar, &requests, mass) {
            return Ok(None);
        }
        Ok(Some(Stores {
            alloc,
            nodes,
            windows,
            jar,
            requests,
            mass,
            touched: Touched::new(alloc),
        }))
    }
}

/// Whether the parts are valid together.
fn fit(nodes: &Nodes, windows: &Windows, jar: &Jar, requests: &Requests, mass: u64) -> bool
    ensures { IsTrue result ↔ IsStores (untouched
        (record {
          nodes = nodes.now;
          windows = windows.now;
          jar = jar.now;
          requests = requests.now;
          mass = mass;
        })) }
{
    let _known = jar.len();
    if !refer(nodes, windows, requests) {
        return false;
    }
    if !are_rooted(nodes, windows) {
        return false;
    }
    if !are_queued(nodes, windows) {
        return false;
    }
    mass <= MOST_MASS
}

/// Whether what nodes, pages, variables and requests refer to was made.
fn refer(nodes: &Nodes, windows: &Windows, requests: &Requests) -> bool
    ensures value { IsTrue result ↔ DoRefer nodes.now windows.now requests.now }
    ensures nodes { AreNodes nodes.now }
    ensures windows { AreWindows windows.now }
    ensures requests { AreRequests requests.now }
{
    let counts = windows.counts();
    let made = Made {
        wins: counts.wins,
        pages: counts.pages,
        nodes: nodes.len(),
        acts: counts.acts,
    };
    let nodes_refer = nodes.refer(made);
    let requests_refer = requests.refer(made);
    nodes_refer && requests_refer && windows.pages_refer(made) && windows.acts_refer(made)
}

/// Whether each page has its root, which is the root of no other page.
fn are_rooted(nodes: &Nodes, windows: &Windows) -> bool
    requires { RootsLive nodes.now windows.now.pages }
    ensures { IsTrue result ↔ AreRooted nodes.now windows.now.pages }
{
    if !have_roots(nodes, windows) {
        return false;
    }
    are_roots(nodes, windows)
}

/// Whether the root of each page is the root of that page.
fn have_roots(nodes: &Nodes, windows: &Windows) -> bool
    requires { RootsLive nodes.now windows.now.pages }
    ensures { IsTrue result ↔ HaveRoots nodes.now windows.now.pages }
{
    for p in 0..windows.counts().pages {
        if !is_root_of(nodes, windows.root_of(PageId(p)), PageId(p)) {
            return false;
        }
    }
    true
}

/// Whether a node is the root of a page.
fn is_root_of(nodes: &Nodes, root: NodeId, page: PageId) -> bool
    requires { root.0 < length nodes.now }
    ensures { IsTrue result ↔ ((node_at nodes.now root).shape ≡ shape.Page page) }
{
    match nodes.page(root) {
        Some(found) => found == page,
        None => false,
    }
}

/// Whether each root of a page is the root that this page has.
fn are_roots(nodes: &Nodes, windows: &Windows) -> bool
    requires { RootsLive nodes.now windows.now.pages }
    ensures { IsTrue result ↔ AreRoots nodes.now windows.now.pages }
{
    for n in 0..nodes.len() {
        if let Some(page) = nodes.page(NodeId(n)) {
            if windows.root_of(page) != NodeId(n) {
                return false;
            }
        }
    }
    true
}

/// Whether the entries of all queues, and the slots of all pages, are no more than scripts were
/// started.
fn are_queued(nodes: &Nodes, windows: &Windows) -> bool
    ensures { IsTrue result ↔ AreQueued nodes.now windows.now.pages }
{
    let mut entries = nodes.count_started();
    let mut slots = entries;
    for p in 0..windows.counts().pages {
        let page = PageId(p);
        let queued = windows.queue_len(page);
        let next = windows.next_slot(page);
        if queued > entries || next > slots {
            return false;
        }
        entries -= queued;
        slots -= next;
    }
    true
}
