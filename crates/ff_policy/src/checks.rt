//! From a draft to a policy.
ghost use Rattle.std.specs.Prelude.{◌≢◌, ◌↔◌, OnOk, IfErr, IsTrue};
ghost use Rattle.ff_policy.specs.Assignment.{IsKey, AreSpelled};
ghost use Rattle.ff_policy.specs.Reading.{IsKeyFault};

use crate::PolicyFault;
use crate::key::Key;
use ff_name::is_domain;

/// Whether the bytes are a domain, or a dot and a domain.
fn is_key(bytes: &[u8]) -> bool
    ensures { IsTrue result ↔ IsKey bytes.now }
{
    if is_domain(bytes) {
        return true;
    }
    match bytes.split_first() {
        Some((b'.', rest)) => is_domain(rest),
        _ => false,
    }
}

/// Tests how each key is spelled.
pub(crate) fn check_keys(keys: &[Key]) -> Result<(), PolicyFault>
    ensures done { OnOk result (AreSpelled keys.now) }
    ensures fault { IfErr result (λ fault. fault ≢ PolicyFault.NoMemory
        → IsKeyFault keys.now fault) }
{
    for one in keys {
        if !is_key(one.key.as_bytes()) {
            return Err(PolicyFault::BadDomain(one.key.copy()?));
        }
    }
    Ok(())
}
