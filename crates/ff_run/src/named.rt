//! A name, and what it stands for.
ghost use Rattle.std.specs.Prelude.{◌≡◌, ◌≢◌, ◌<◌, ◌⊎◌, ℕ, List, IfOk, IfErr, Ok, Err};
ghost use Rattle.ff_run.specs.Status.{IsUncopied};
ghost use Rattle.ff_run.specs.Names.{Kind, Names, NamesBad, Refuses, IsByGiven, IsFetchedOrFails, IsKnown, IsLater, IsOutside};
ghost use Rattle.ff_run.specs.Words.{dash};
ghost use Rattle.ff_status.specs.declared.status.Status.{Status};

use crate::NoMemory;
use ff_contract::Steps;
use ff_io::{FetchFail, Shelf, fetch_front};
use ff_status::Status;
use std::alloc::Global;
use std::sync::ledger::Ledger;

/// What a name may stand for: something built in at `-`, and else what a file's bytes give.
pub(crate) trait Named {
    /// What is found.
    type Found: Drop;

    // What a name may stand for.
    ghost kind: { Self → Kind Self.Found };

    // How the counter of copied cells goes on while a file is read.
    ghost copied: { Self → ℕ → ℕ → Type 0 };

    /// How many bytes of a file count, from 1 on.
    fn most(&self) -> usize
        ensures value { result ≡ (kind self.now).most }
        ensures some { 0 < result };

    /// What is built in.
    fn at_dash(&self, alloc: Global) -> Result<Self::Found, NoMemory>
        ensures { IfOk result (λ found. found ≡ (kind self.now).built_in) };

    /// What the bytes of a file give. `copies` counts the cells that are copied for it.
    fn read<C: Ledger>(
        &self,
        alloc: Global,
        bytes: &[u8],
        copies: &mut Steps<C>,
    ) -> Result<Self::Found, Status>
        ensures found { IfOk result ((kind self.now).gives bytes.now) }
        ensures bad { IfErr result (λ status. (status ≡ Status.NoMemory)
            ⊎ (kind self.now).is_bad bytes.now status) }
        ensures only { (found : Self.Found) → (kind self.now).gives bytes.now found
            → (result ≡ Ok found) ⊎ (result ≡ Err Status.NoMemory) }
        ensures exact { (status : Status) → (kind self.now).is_bad bytes.now status
            → (result ≡ Err status) ⊎ (result ≡ Err Status.NoMemory) }
        ensures copied { copied self.now copies.old copies.new }
        ensures uncopied { IfErr result (λ status. IsUncopied status → copies.new ≡ copies.old) };
}

/// What this name stands for. The shelf isn't called for `-`, and no cell is copied for it.
///
/// # Errors
///
/// `ShelfFault` where a fetch failed, `NoMemory`, and what the bytes of the file end a run with.
#[tactic(auto, using(crate::proofs::Finding::no_memory, crate::proofs::Finding::named_at_dash, crate::proofs::Finding::accepts_at_dash, crate::proofs::Finding::none_at_dash))]
pub(crate) fn find<N: Named, S: Shelf, C: Ledger>(
    alloc: Global,
    what: &N,
    shelf: &mut S,
    name: &str,
    copies: &mut Steps<C>,
) -> Result<N::Found, Status>
    ensures named { IfOk result (Names (N.kind what.now) (S.told shelf.old) name.now) }
    ensures given { IfOk result
        (IsByGiven (N.kind what.now) (S.told shelf.old) (S.told shelf.new) name.now) }
    ensures refused { IfErr result
        (Refuses (N.kind what.now) (S.told shelf.old) (S.told shelf.new) name.now) }
    ensures only { (found : N.Found) → IsKnown (S.told shelf.old) name.now
        → Names (N.kind what.now)
        (S.told shelf.old) name.now found → (result ≡ Ok found) ⊎ IsOutside result }
    ensures exact { (status : Status) → IsKnown (S.told shelf.old) name.now
        → NamesBad (N.kind what.now)
        (S.told shelf.old) name.now status → (result ≡ Err status) ⊎ IsOutside result }
    ensures fetched { IsFetchedOrFails (S.told shelf.old) (S.told shelf.new) result }
    ensures later { IsLater (S.told shelf.old) (S.told shelf.new) }
    ensures copied { (copies.new ≡ copies.old) ⊎ N.copied what.now copies.old copies.new }
    ensures uncopied { IfErr result (λ status. IsUncopied status → copies.new ≡ copies.old) }
    ensures untouched { name.now ≡ dash → shelf.new ≡ shelf.old }
{
    if name == "-" {
        match what.at_dash(alloc) {
            Ok(found) => Ok(found),
            Err(_) => Err(Status::NoMemory),
        }
    } else {
        fetch(alloc, what, shelf, name, copies)
    }
}

/// What the bytes of the file of this name give.
#[tactic(auto, using(crate::proofs::Finding::no_memory))]
fn fetch<N: Named, S: Shelf, C: Ledger>(
    alloc: Global,
    what: &N,
    shelf: &mut S,
    name: &str,
    copies: &mut Steps<C>,
) -> Result<N::Found, Status>
    requires { name.now ≢ dash }
    ensures named { IfOk result (Names (N.kind what.now) (S.told shelf.old) name.now) }
    ensures given { IfOk result
        (IsByGiven (N.kind what.now) (S.told shelf.old) (S.told shelf.new) name.now) }
    ensures refused { IfErr result
        (Refuses (N.kind what.now) (S.told shelf.old) (S.told shelf.new) name.now) }
    ensures only { (found : N.Found) → IsKnown (S.told shelf.old) name.now
        → Names (N.kind what.now)
        (S.told shelf.old) name.now found → (result ≡ Ok found) ⊎ IsOutside result }
    ensures exact { (status : Status) → IsKnown (S.told shelf.old) name.now
        → NamesBad (N.kind what.now)
        (S.told shelf.old) name.now status → (result ≡ Err status) ⊎ IsOutside result }
    ensures fetched { IsFetchedOrFails (S.told shelf.old) (S.told shelf.new) result }
    ensures later { IsLater (S.told shelf.old) (S.told shelf.new) }
    ensures copied { (copies.new ≡ copies.old) ⊎ N.copied what.now copies.old copies.new }
    ensures uncopied { IfErr result (λ status. IsUncopied status → copies.new ≡ copies.old) }
{
    match fetch_front(alloc, shelf, name, what.most()) {
        Ok(bytes) => what.read(alloc, bytes.as_slice(), copies),
        Err(FetchFail::Fetch) => Err(Status::ShelfFault),
        Err(FetchFail::NoMemory) => Err(Status::NoMemory),
    }
}
