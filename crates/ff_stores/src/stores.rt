//! The stores and what is read off them.
ghost use Rattle.std.specs.Prelude.{◌≡◌, ◌<◌, length, IfOk, IfSome};
ghost use Rattle.std.specs.Option.{option_copied};
ghost use Rattle.ff_machine.specs.Stores as s;
ghost use Rattle.ff_machine.specs.Windows as w;
ghost use Rattle.ff_machine.specs.Valid.{IsStores};

use crate::touched::Touched;
use ff_contract::Steps;
use ff_name::{Name, NoMemory};
use ff_net::{Jar, Requests};
use ff_nodes::Nodes;
use ff_value::{ActId, Val};
use ff_windows::Windows;
use std::alloc::Global;
use std::marker::Model;
use std::sync::ledger::Ledger;

/// The stores of one copy of the browser: nodes, windows, cookies, pending requests, the mass in
/// bytes, and the pages that were touched. They are valid at all times, references from one store
/// to another included. After want of memory they are the old ones, later ones or empty ones.
pub struct Stores {
    pub(crate) alloc: Global,
    pub(crate) nodes: Nodes,
    pub(crate) windows: Windows,
    pub(crate) jar: Jar,
    pub(crate) requests: Requests,
    pub(crate) mass: u64,
    pub(crate) touched: Touched,
}

// Written out, so that the proof of a caller sees one call and not a part for each field.
impl Drop for Stores {
    fn drop(self) {
        let Stores {
            alloc: _,
            nodes: _nodes,
            windows: _windows,
            jar: _jar,
            requests: _requests,
            mass: _,
            touched: _touched,
        } = self;
    }
}

impl Model for Stores {
    ghost use Rattle.ff_machine.specs.Stores as record_of;
    ghost use Rattle.ff_machine.specs.Codes.{coded_stores};

    ghost Value = { record_of.Stores };

    ghost coded = { coded_stores };

    ghost use Rattle.ff_machine.specs.Valid.{IsStores};
    ghost use Rattle.ff_stores.specs.Views.{stores_of};

    ghost view = { stores_of };

    ghost invariant = { λ s. IsStores (stores_of s) };
}

impl Stores {
    /// Stores in which nothing was made, which take no memory. What they grow by is taken from
    /// `alloc`.
    #[tactic(auto, using(ff_machine::proofs::Empty::empty_valid))]
    pub fn new(alloc: Global) -> Stores
        ensures { result ≡ s.empty }
    {
        Stores {
            alloc,
            nodes: Nodes::new(alloc),
            windows: Windows::new(alloc),
            jar: Jar::new(alloc),
            requests: Requests::new(alloc),
            mass: 0,
            touched: Touched::new(alloc),
        }
    }

    /// Equal stores that share what they hold with these: no cell is copied, and no later change of
    /// one of the two is seen in the other. Only the touched pages' numbers are written anew.
    pub fn fork<C: Ledger>(&self, copies: &mut Steps<C>) -> Result<Stores, NoMemory>
        ensures equal { IfOk result (λ stores. stores ≡ self.now) }
        ensures copies { copies.new ≡ copies.old }
    {
        Ok(Stores {
            alloc: self.alloc,
            nodes: self.nodes.fork(copies)?,
            windows: self.windows.fork(copies)?,
            jar: self.jar.fork(copies)?,
            requests: self.requests.fork(copies)?,
            mass: self.mass,
            touched: self.touched.copy()?,
        })
    }

    /// The nodes.
    pub fn nodes(&self) -> &Nodes
        ensures value { result.now ≡ self.now.nodes }
        ensures valid { IsStores self.now }
    {
        &self.nodes
    }

    /// Windows, pages and activations.
    pub fn windows(&self) -> &Windows
        ensures value { result.now ≡ self.now.windows }
        ensures valid { IsStores self.now }
    {
        &self.windows
    }

    /// The cookies.
    pub fn jar(&self) -> &Jar
        ensures value { result.now ≡ self.now.jar }
        ensures valid { IsStores self.now }
    {
        &self.jar
    }

    /// The pending requests.
    pub fn requests(&self) -> &Requests
        ensures value { result.now ≡ self.now.requests }
        ensures valid { IsStores self.now }
    {
        &self.requests
    }

    /// The mass, in bytes.
    pub fn mass(&self) -> u64
        ensures value { result ≡ self.now.mass }
        ensures valid { IsStores self.now }
    {
        self.mass
    }

    /// The value of the nearest variable of that name, lent.
    pub fn lookup(&self, a: ActId, x: &Name) -> Option<&Val>
        requires { a.0 < length self.now.windows.acts }
        ensures { option_copied result ≡ w.lookup self.now.windows.acts a x.now }
    {
        self.windows.lookup(a, x)
    }
}

/// Leaves nothing in stores whose memory has run out.
#[cold]
#[inline(never)]
#[tactic(auto, using(ff_machine::proofs::Empty::empty_valid))]
pub(crate) fn leave_nothing(
    alloc: Global,
    nodes: &mut Nodes,
    windows: &mut Windows,
    jar: &mut Jar,
    requests: &mut Requests,
    mass: &mut u64,
    touched: &mut Touched,
)
    ensures empty { record {
      nodes = nodes.new;
      windows = windows.new;
      jar = jar.new;
      requests =
          requests.new;
      mass = mass.new;
      touched = touched.new;
    } ≡ s.empty }
    ensures valid { IsStores (record {
      nodes = nodes.new;
      windows = windows.new;
      jar = jar.new;
      requests = requests.new;
      mass = mass.new;
      touched = touched.new;
    }) }
{
    *nodes = Nodes::new(alloc);
    *windows = Windows::new(alloc);
    *jar = Jar::new(alloc);
    *requests = Requests::new(alloc);
    *mass = 0;
    *touched = Touched::new(alloc);
}
