//! The working folder as a shelf.
ghost use Rattle.std.specs.Prelude.{◌≡◌, ℕ, List, [], Some, ◌≤◌, length, IfOk};

use super::counts::fail;
use super::fetches::Fetches;
use super::outside::{Failed, Shelf};
use super::retry::read_retrying;
use std::io::{Seek, SeekFrom};
use std::rt::Files;
use std::{fs, io};

/// The files of the working folder, opened by their names as they are given. It tells the fetches
/// that were made, and no files, since others may change them. An error counts as a fault, for all
/// names together.
#[derive(Drop)]
pub struct DirShelf<'a, R: Files> {
    runtime: &'a R,
    fetches: Fetches,
    faults: u64,
}

impl<'a, R: Files> DirShelf<'a, R> {
    /// The working folder of this runtime, with no fetch and no fault yet.
    pub fn new(rt: &'a R) -> DirShelf<'a, R>
        ensures fetches { ⟦<DirShelf<'a, R> as Shelf>⟧.fetches result ≡ Some [] }
        ensures faults { (name : List ℕ) → ⟦<DirShelf<'a, R> as Shelf>⟧.faults result name ≡ 0 }
    {
        DirShelf {
            runtime: rt,
            fetches: Fetches::new(),
            faults: 0,
        }
    }
}

impl<R: Files> Shelf for DirShelf<'_, R> {
    ghost use Rattle.std.specs.Prelude.{None, Some, refl};

    ghost files = { λ _. None };

    ghost fetches = { λ s. Some s.fetches.noted };

    ghost faults = { λ s _. s.faults };

    ghost told = { λ s. record {
      files = None;
      fetches = Some s.fetches.noted;
      faults = λ _. s.faults;
    } };

    ghost tells = { λ s. refl };

    fn fetch(&mut self, name: &str, at: u64, into: &mut [u8]) -> Result<usize, Failed> {
        match read_at(self.runtime, name, at, into) {
            Ok(n) => {
                self.fetches.came(name.as_bytes(), at, &into[..n]);
                Ok(n)
            }
            Err(_) => {
                self.fetches.failed(name.as_bytes(), at);
                fail(&mut self.faults)
            }
        }
    }
}

/// Reads the named file at an offset in bytes.
fn read_at<R: Files>(rt: &R, name: &str, at: u64, into: &mut [u8]) -> io::Result<usize>
    ensures { IfOk result (λ n. n ≤ length into.new) }
{
    let mut file = fs::open(rt, name)?;
    file.seek(SeekFrom::Start(at))?;
    read_retrying(&mut file, into)
}
