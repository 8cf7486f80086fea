//! A reactor that is made of stores.
ghost use Rattle.std.specs.Prelude.{◌≡◌, ◌≤◌};
ghost use Rattle.std.specs.FinSet as finset;
ghost use Rattle.ff_reactor.specs.declared.reactor.TheConstants.{MOST_BUDGET};
ghost use Rattle.ff_restorable.specs.Resting.{resting};

use ff_reactor::Reactor;
use ff_stores::Stores;
use std::alloc::Global;

/// A reactor that keeps its stores as `ff_stores` does.
pub trait Restorable: Reactor {
    /// The stores.
    fn stores(&self) -> &Stores
        ensures { result.now ≡ (Self.state self.now).stores };

    /// A quiet one with these stores, in which no page is touched, and with no fuel left. Each
    /// input brings it so much fuel, from 1 to [`MOST_BUDGET`](ff_reactor::MOST_BUDGET). It takes
    /// no memory.
    fn restore(alloc: Global, fuel: u32, stores: Stores) -> Self
        requires some { 1 ≤ fuel }
        requires few { fuel ≤ MOST_BUDGET }
        requires untouched { stores.touched ≡ finset.empty }
        ensures { Self.state result ≡ resting fuel stores };
}
