//! Keys for domains, and the key that stands for a domain.
ghost use Rattle.std.specs.Prelude.{◌≡◌, Option, Some, None, option_map, bytes_eq};
ghost use Rattle.std.specs.List.{find};
ghost use Rattle.ff_policy.specs.Assignment as spec;
ghost use Rattle.ff_policy.specs.Assignment.{covers, is_dotted, longer, longest, level_or};

use ff_name::{Level, Text};
use std::marker::Model;

/// A key for domains, and the level of the domains that it stands for.
#[derive(Debug, Drop)]
pub(crate) struct Key {
    pub(crate) key: Text,
    pub(crate) level: Level,
}

impl Model for Key {
    ghost use Rattle.ff_policy.specs.Assignment as spec;

    ghost Value = { spec.Key };

    ghost view = { λ s. record { key = s.key; level = s.level.0 } };
}

/// The level of a domain: that of its own key, else of the longest key that covers it, else the
/// other one.
pub(crate) fn level_of(keys: &[Key], domain: &[u8], other: Level) -> Level
    ensures { result.0 ≡ level_or (find (λ k. bytes_eq k.key domain.now) keys.now)
        (level_or (longest domain.now keys.now) other.0) }
{
    match own_key(keys, domain) {
        Some(one) => one.level,
        None => match longest(keys, domain) {
            Some(one) => one.level,
            None => other,
        },
    }
}

/// The key that is the domain itself.
#[tactic(auto, using(crate::proofs::Seeking::seek_start, crate::proofs::Seeking::seek_step, crate::proofs::Seeking::seek_found, crate::proofs::Seeking::seek_none))]
fn own_key<'k>(keys: &'k [Key], domain: &[u8]) -> Option<&'k Key>
    ensures { option_map (λ k. k.now) result ≡ find (λ k. bytes_eq k.key domain.now) keys.now }
{
    for one in keys {
        if one.key.as_bytes() == domain {
            return Some(one);
        }
    }
    None
}

/// The longest of the keys that cover the domain.
#[tactic(auto, using(crate::proofs::Seeking::long_start, crate::proofs::Seeking::long_step, crate::proofs::Seeking::long_pass, crate::proofs::Seeking::long_done))]
fn longest<'k>(keys: &'k [Key], domain: &[u8]) -> Option<&'k Key>
    ensures { option_map (λ k. k.now) result ≡ longest domain.now keys.now }
{
    let mut best: Option<&Key> = None;
    for one in keys {
        if covers(one.key.as_bytes(), domain) {
            best = Some(longer_of(best, one));
        }
    }
    best
}

/// The longer of the best key so far and another: the first where they are as long.
fn longer_of<'k>(best: Option<&'k Key>, one: &'k Key) -> &'k Key
    ensures { result.now ≡ spec.longer_of (option_map (λ k. k.now) best.entry) one.now }
{
    match best {
        None => one,
        Some(best) => {
            if one.key.as_bytes().len() <= best.key.as_bytes().len() {
                best
            } else {
                one
            }
        }
    }
}

/// Whether the key begins with a dot and the domain ends with it.
fn covers(key: &[u8], domain: &[u8]) -> bool
    ensures { result ≡ covers key.now domain.now }
{
    is_dotted(key) && domain.ends_with(key)
}

fn is_dotted(key: &[u8]) -> bool
    ensures { result ≡ is_dotted key.now }
{
    match key.split_first() {
        None => false,
        Some((first, _)) => *first == b'.',
    }
}
