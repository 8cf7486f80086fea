//! The expression of a line.
ghost use Rattle.std.specs.Prelude.{IfOk};
ghost use Rattle.ff_tree.specs.Spelled.{IsWellSpelledExpr};

use anyhow::{Result, bail};
use ff_reading::read_expr;
use ff_text::{MOST_BYTES, read};
use ff_value::{Body, Shared};
use std::alloc::Global;

/// The expression that a line of the notation spells. It says what is wrong with a line that spells
/// none, or that is longer than the notation's readers take.
pub fn read_body(alloc: Global, line: &str) -> Result<Body>
    ensures { IfOk result (λ body. IsWellSpelledExpr body) }
{
    let bytes = line.as_bytes();
    if bytes.len() > MOST_BYTES {
        bail!("a line is too long");
    }
    let item = read(alloc, bytes)?;
    let expr = read_expr(alloc, &item)?;
    Ok(Shared::new(alloc, expr)?)
}
