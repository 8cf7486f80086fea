//! Parameters that were read.
ghost use Rattle.std.specs.Prelude.{◌≡◌, ◌∷◌, ◌++◌, [], IfOk, OnOk};
ghost use Rattle.std.specs.List.{list_any};
ghost use Rattle.std.specs.Str.{bytes_eq};

use ff_forms::NoMemory;
use ff_value::{Name, Names, SharedList};
use std::alloc::{AllocError, Global};
use std::collections::BTreeSet;
use std::marker::Model;

/// The names of parameters in their order: contracts see the list. Which they are is kept in byte
/// order besides, so that a further name is compared with few of them.
#[derive(Drop)]
pub(crate) struct Parameters {
    names: Vec<Name>,
    seen: BTreeSet<Name>,
}

impl Model for Parameters {
    ghost use Rattle.std.specs.Prelude.{ℕ, List};
    ghost use Rattle.ff_reading.specs.Seen.{HasSeen};

    ghost Value = { List (List ℕ) };

    ghost view = { λ p. p.names.items };

    ghost invariant = { λ p. HasSeen p.seen p.names.items };
}

impl Parameters {
    /// No names, which take no memory.
    #[tactic(auto, using(crate::proofs::Seen::seen_none))]
    pub(crate) fn new(alloc: Global) -> Parameters
        ensures { result ≡ [] }
    {
        Parameters {
            names: Vec::new(alloc),
            seen: BTreeSet::new(alloc),
        }
    }

    /// Whether a name is one of them.
    pub(crate) fn has(&self, name: &Name) -> bool
        ensures { result ≡ list_any (bytes_eq name.now) self.now }
    {
        self.seen.contains(name)
    }

    /// Adds a name behind the others. After want of memory there may be none.
    pub(crate) fn push(&mut self, alloc: Global, name: Name) -> Result<(), NoMemory>
        ensures { OnOk result (self.new ≡ self.old ++ name ∷ []) }
    {
        let seen = name.copy()?;
        self.names.push(name)?;
        match self.seen.insert(seen) {
            Ok(_is_new) => Ok(()),
            Err(_refused) => {
                *self = Parameters::new(alloc);
                Err(AllocError)
            }
        }
    }

    /// The names as a list that is shared.
    pub(crate) fn into_list(self, alloc: Global) -> Result<Names, NoMemory>
        ensures { IfOk result (λ names. names ≡ self) }
    {
        SharedList::from_vec(alloc, self.names)
    }
}
