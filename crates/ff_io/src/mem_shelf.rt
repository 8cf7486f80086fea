//! A shelf in memory.
ghost use Rattle.std.specs.Prelude.{◌≡◌, ℕ, ◌-◌, ◌≤◌, ◌<◌, ◌++◌, ◌∷◌, ◌⊎◌, ◌↔◌, List, [], Some, take, drop, length, min, IsErr, IsNone, IfOk, IfSome, OnOk, is_some, if◌then◌else◌};
ghost use Rattle.ff_io.specs.Counts.{next_count as next_count_of, HasCause};
ghost use Rattle.ff_io.specs.Shelf.{Gives, IsPart, Notes, came_of, fetched};

use super::counts::{fail, next_count};
use super::fetches::Fetches;
use super::outside::{Failed, Shelf};
use std::collections::BTreeMap;

/// A shelf in memory. A fetch gives as many bytes as fit. Fetches are numbered from 1, and fail
/// exactly where they are listed or the name isn't there. A listed failure counts for every name,
/// and a missing name only for the names that aren't there.
#[derive(Drop)]
pub struct MemShelf {
    files: BTreeMap<String, Vec<u8>>,
    bad_fetches: Vec<u64>,
    fetches: u64,
    faults: u64,
    missing_faults: u64,
    log: Fetches,
}

impl MemShelf {
    ghost use Rattle.ff_io.specs.MemFiles.{files_in, shelf_files, shelf_log, shelf_faults, bad_fetches_of, fetches_of};

    /// A shelf with these files, whose listed fetches fail.
    pub fn new(files: BTreeMap<String, Vec<u8>>, bad_fetches: Vec<u64>) -> MemShelf
        ensures files { shelf_files result ≡ files_in files }
        ensures log { shelf_log result ≡ [] }
        ensures listed { bad_fetches_of result ≡ bad_fetches.items }
        ensures fetches { fetches_of result ≡ 0 }
        ensures faults { (name : List ℕ) → shelf_faults result name ≡ 0 }
    {
        MemShelf {
            files,
            bad_fetches,
            fetches: 0,
            faults: 0,
            missing_faults: 0,
            log: Fetches::new(),
        }
    }
}

impl Shelf for MemShelf {
    ghost use Rattle.std.specs.Prelude.{Some, refl};
    ghost use Rattle.ff_io.specs.MemFiles.{shelf_files, shelf_log, shelf_faults, bad_fetches_of, fetches_of, IsListed};

    ghost files = { λ s. Some (shelf_files s) };

    ghost fetches = { λ s. Some (shelf_log s) };

    ghost faults = { shelf_faults };

    ghost told = { λ s. record {
      files = Some (shelf_files s);
      fetches = Some (shelf_log s);
      faults = shelf_faults s;
    } };

    ghost tells = { λ s. refl };

    fn fetch(&mut self, name: &str, at: u64, into: &mut [u8]) -> Result<usize, Failed>
        requires { 0 < length into.old }
        ensures bound { IfOk result (λ n. n ≤ length into.new) }
        ensures bytes { Gives (Some (shelf_files self.old)) name.now at result into.new }
        ensures files { Some (shelf_files self.new) ≡ Some (shelf_files self.old) }
        ensures fetches { Notes (Some (shelf_log self.old)) (Some (shelf_log self.new))
            (fetched name.now at (came_of result into.new) ∷ []) }
        ensures cause { HasCause (shelf_faults self.old name.now) (shelf_faults self.new name.now)
            result }
        ensures later { (other : List ℕ) → shelf_faults self.old other
            ≤ shelf_faults self.new other }

        // Which fetches fail, what they count for, and what the others give.
        ensures refused { IsErr result ↔ (IsListed self.old
            ⊎ IsNone (shelf_files self.old name.now)) }
        ensures listed { IsListed self.old → (other : List ℕ)
            → shelf_faults self.new other ≡ next_count_of (shelf_faults self.old other) }
        ensures missing { ¬ IsListed self.old → IsErr result → (other : List ℕ)
            → shelf_faults self.new other
            ≡ (if is_some (shelf_files self.old other) then shelf_faults self.old other else
            next_count_of (shelf_faults self.old other)) }
        ensures good { OnOk result ((other : List ℕ)
            → shelf_faults self.new other ≡ shelf_faults self.old other) }
        ensures size { IfOk result (λ n. IfSome (shelf_files self.old name.now)
            (λ file. n ≡ min (length into.old) (length file - at))) }
        ensures number { fetches_of self.new ≡ next_count_of (fetches_of self.old) }
        ensures list { bad_fetches_of self.new ≡ bad_fetches_of self.old }
    {
        self.fetches = next_count(self.fetches);
        if self.bad_fetches.contains(&self.fetches) {
            self.log.failed(name.as_bytes(), at);
            self.faults = next_count(self.faults);
            return fail(&mut self.missing_faults);
        }
        match self.files.get(name) {
            Some(file) => {
                let n = copy_part(file, at, into);
                self.log.came(name.as_bytes(), at, &into[..n]);
                Ok(n)
            }
            None => {
                self.log.failed(name.as_bytes(), at);
                fail(&mut self.missing_faults)
            }
        }
    }
}

/// Copies as many bytes of the file from offset `at` on as fit, and answers how many.
fn copy_part(file: &[u8], at: u64, into: &mut [u8]) -> usize
    requires { 0 < length into.old }
    ensures size { result ≡ min (length into.old) (length file.now - at) }
    ensures bytes { into.new ≡ take result (drop at file.now) ++ drop result into.old }
    ensures part { IsPart file.now at (take result into.new) }
{
    let start = at.min(file.len() as u64) as usize;
    let rest = &file[start..];
    let n = rest.len().min(into.len());
    into[..n].copy_from_slice(&rest[..n]);
    n
}
