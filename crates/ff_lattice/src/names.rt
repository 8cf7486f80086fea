ghost use Rattle.std.specs.Prelude.{◌≡◌, List, OnOk, IfErr};
ghost use Rattle.std.specs.List.{list_all};
ghost use Rattle.ff_lattice.specs.Levels.{AreNamed, IsFault};
ghost use Rattle.ff_lattice.specs.Order.{is_level_name};
ghost use Rattle.ff_lattice.specs.declared.pair.Pair.{Pair};
ghost use Rattle.ff_name.specs.Spelling.{stands_in_name};

use crate::LatticeFault;
use ff_name::{Text, stands_in_name};

/// The most levels that a lattice has.
pub const MOST_LEVELS: usize = 16;

/// The most bytes that a level's name has.
pub const MOST_LEVEL_NAME_BYTES: usize = 32;

/// Whether each byte may stand after the first letter of a level's name.
fn all_stand_in_level_name(bytes: &[u8]) -> bool
    ensures { result ≡ list_all stands_in_name bytes.now }
{
    bytes.iter().all(|byte| stands_in_name(*byte))
}

/// Whether the bytes are a letter followed by at most 31 letters, digits, `_` or `-`.
fn is_level_name(bytes: &[u8]) -> bool
    ensures { result ≡ is_level_name bytes.now }
{
    match bytes.split_first() {
        None => false,
        Some((first, rest)) => {
            first.is_ascii_alphabetic()
                && all_stand_in_level_name(rest)
                && rest.len() < MOST_LEVEL_NAME_BYTES
        }
    }
}

/// Tests how many names there are and how each is spelled.
pub(crate) fn check_names(names: &[Text]) -> Result<(), LatticeFault>
    ensures found { OnOk result (AreNamed names.now) }
    ensures fault { IfErr result (λ fault. (below : List Pair) → IsFault names.now below fault) }
{
    if names.is_empty() {
        return Err(LatticeFault::NoLevels);
    }
    if names.len() > MOST_LEVELS {
        return Err(LatticeFault::TooMany);
    }
    for (place, name) in names.iter().enumerate() {
        if !is_level_name(name.as_bytes()) {
            return Err(LatticeFault::BadName(place as u32));
        }
    }
    Ok(())
}
