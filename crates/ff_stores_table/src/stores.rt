//! The stores of a case, and the fork of them that is kept.

use crate::restoring::Records;
use anyhow::Result;
use ff_contract::Steps;
use ff_net::{Jar, Requests};
use ff_windows::Windows;
use std::alloc::Global;
use std::mem;
use std::sync::ledger::Ledger;

/// The stores that lines change, and the records that lines noted.
pub struct Stores {
    pub jar: Jar,
    pub requests: Requests,
    pub windows: Windows,
    pub records: Records,
}

// Written out, so that the proof of a caller sees one call.
impl Drop for Stores {
    fn drop(self) {
        let Stores {
            jar: _jar,
            requests: _requests,
            windows: _windows,
            records: _records,
        } = self;
    }
}

impl Stores {
    fn new(alloc: Global) -> Stores {
        Stores {
            jar: Jar::new(alloc),
            requests: Requests::new(alloc),
            windows: Windows::new(alloc),
            records: Records::new(alloc),
        }
    }

    fn fork<C: Ledger>(&self, alloc: Global, copies: &mut Steps<C>) -> Result<Stores> {
        let jar = self.jar.fork(copies)?;
        let requests = self.requests.fork(copies)?;
        let windows = self.windows.fork(copies)?;
        Ok(Stores {
            jar,
            requests,
            windows,
            records: Records::new(alloc),
        })
    }
}

/// The stores of a case, and the fork that is kept.
pub struct Case {
    pub stores: Stores,
    kept: Stores,
}

impl Drop for Case {
    fn drop(self) {
        let Case {
            stores: _stores,
            kept: _kept,
        } = self;
    }
}

impl Case {
    /// A new case.
    pub fn new(alloc: Global) -> Case {
        Case {
            stores: Stores::new(alloc),
            kept: Stores::new(alloc),
        }
    }

    /// Keeps a fork of the stores.
    pub fn keep<C: Ledger>(&mut self, alloc: Global, copies: &mut Steps<C>) -> Result<()> {
        self.kept = self.stores.fork(alloc, copies)?;
        Ok(())
    }

    /// Goes on with the fork, and keeps the stores.
    pub fn swap(&mut self) {
        mem::swap(&mut self.stores, &mut self.kept);
    }
}
