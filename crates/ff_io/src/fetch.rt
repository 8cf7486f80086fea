//! Fetching the front of a file.
ghost use Rattle.std.specs.Prelude.{◌⊎◌, ◌≡◌, ◌-◌, ◌<◌, ◌≤◌, ℕ, List, length, IfOk, IsErrOf, min, vec_len};
ghost use Rattle.ff_io.specs.Counts.{Rose};
ghost use Rattle.ff_io.specs.Fetched.{AreFetches, IsFetchMade, IsFetched, IsFetchedPiece, IsGiven};
ghost use Rattle.ff_io.specs.declared.fetch.FetchFail.TheVariants.{Fetch, NoMemory};

use super::buffer::buffer_of;
use super::outside::{Failed, Shelf};
use std::alloc::{AllocError, Global};
use thiserror::Error;

/// Why fetching a file stopped.
#[derive(Clone, Copy, Debug, PartialEq, Eq, Error)]
pub enum FetchFail {
    /// A fetch failed, as where the file isn't there.
    #[error("a fetch failed")]
    Fetch,
    /// There is no memory for what was fetched.
    #[error("no memory for what was fetched")]
    NoMemory,
}

impl From<Failed> for FetchFail {
    ghost from_gives = { λ _ fail. fail ≡ Fetch };

    fn from(_failed: Failed) -> FetchFail {
        FetchFail::Fetch
    }
}

impl From<AllocError> for FetchFail {
    ghost from_gives = { λ _ fail. fail ≡ NoMemory };

    fn from(_error: AllocError) -> FetchFail {
        FetchFail::NoMemory
    }
}

/// How many bytes one fetch asks for at most.
const MOST_FETCH_BYTES: usize = 4_096;

/// Fetches the first `limit` bytes of the named file, or all of them where it has fewer. `limit` is
/// at least 1. Bytes after these don't count: the answer is the same whatever they are. No fetch is
/// tried again: the answer is `Fetch` as soon as one failed.
///
/// # Errors
///
/// `Fetch` where a fetch failed, as where the file isn't there; `NoMemory` where there is none for
/// the bytes.
#[tactic(auto, using(crate::proofs::Fetching::fetching_start, crate::proofs::Fetching::fetching_more, crate::proofs::Fetching::fetched_all, crate::proofs::Fetching::asking_start, crate::proofs::Fetching::asking_more, crate::proofs::Fetching::asked_more, crate::proofs::Fetching::asked_none, crate::proofs::Fetching::asked_all, crate::proofs::Fetching::given_all))]
pub fn fetch_front<S: Shelf>(
    alloc: Global,
    shelf: &mut S,
    name: &str,
    limit: usize,
) -> Result<Vec<u8>, FetchFail>
    requires { 0 < limit }
    ensures bytes { IfOk result (λ bytes. IsFetched (S.files shelf.old) name.now limit
        bytes.items) }
    ensures fetches { AreFetches name.now limit (S.fetches shelf.old) (S.fetches shelf.new) }
    ensures given { IfOk result (λ bytes. IsGiven name.now limit (S.fetches shelf.old)
        (S.fetches shelf.new) bytes.items) }
    ensures within { IfOk result (λ bytes. vec_len bytes ≤ limit) }
    ensures files { S.files shelf.new ≡ S.files shelf.old }
    ensures later { (other : List ℕ) → S.faults shelf.old other ≤ S.faults shelf.new other }
    ensures unfailed { IsErrOf result FetchFail.Fetch
        ⊎ ((other : List ℕ) → S.faults shelf.new other ≡ S.faults shelf.old other) }
    ensures cause { IsErrOf result FetchFail.Fetch
        → Rose (S.faults shelf.old name.now) (S.faults shelf.new name.now) }
{
    let mut chunk = buffer_of(alloc, MOST_FETCH_BYTES)?;
    let mut bytes = Vec::new(alloc);
    let mut ended = false;
    while !ended && bytes.len() < limit {
        let size = size_of_fetch(limit - bytes.len());
        ended = fetch_piece(shelf, name, &mut chunk[..size], &mut bytes)?;
    }
    Ok(bytes)
}

/// How many bytes to ask for, where so many are wanted.
fn size_of_fetch(wanted: usize) -> usize
    ensures { result ≡ min MOST_FETCH_BYTES wanted }
{
    wanted.min(MOST_FETCH_BYTES)
}

/// Fetches one piece from where `bytes` ends, adds it to `bytes`, and says whether it is the end.
fn fetch_piece<S: Shelf>(
    shelf: &mut S,
    name: &str,
    into: &mut [u8],
    bytes: &mut Vec<u8>,
) -> Result<bool, FetchFail>
    requires { 0 < length into.old }
    ensures piece { IfOk result (IsFetchedPiece (S.files shelf.old) name.now bytes.old.items
        bytes.new.items (length into.old)) }
    ensures made { IsFetchMade name.now (S.fetches shelf.old) (S.fetches shelf.new) bytes.old.items
        bytes.new.items result }
    ensures files { S.files shelf.new ≡ S.files shelf.old }
    ensures later { (other : List ℕ) → S.faults shelf.old other ≤ S.faults shelf.new other }
    ensures unfailed { IsErrOf result FetchFail.Fetch
        ⊎ ((other : List ℕ) → S.faults shelf.new other ≡ S.faults shelf.old other) }
    ensures cause { IsErrOf result FetchFail.Fetch
        → Rose (S.faults shelf.old name.now) (S.faults shelf.new name.now) }
{
    let n = shelf.fetch(name, bytes.len() as u64, into)?;
    bytes.extend_from_slice(&into[..n])?;
    Ok(n == 0)
}
