//! Which functions and values are well spelled.
ghost use Rattle.std.specs.Prelude.{◌↔◌, IsTrue, IfOk};
ghost use Rattle.ff_value.specs.Spelled.{IsWellSpelledCode, IsWellSpelledVal, TakesOne};

use crate::spelled::{are_params, is_expr};
use ff_name::NoMemory;
use ff_value::{Code, Val};
use std::alloc::Global;

/// Whether a function can be written: its parameters are variables that differ, and its body is
/// well spelled.
pub fn is_code(alloc: Global, code: &Code) -> Result<bool, NoMemory>
    ensures { IfOk result (λ is. IsTrue is ↔ IsWellSpelledCode code.now) }
{
    let are = are_params(alloc, &code.params)?;
    let is = is_expr(alloc, code.body.get())?;
    Ok(are && is)
}

/// Whether a function can be written and has one parameter, as a handler and a callback have.
pub fn is_handler(alloc: Global, code: &Code) -> Result<bool, NoMemory>
    ensures { IfOk result (λ is. IsTrue is ↔ (IsWellSpelledCode code.now × TakesOne code.now)) }
{
    if code.params.len() != 1 {
        return Ok(false);
    }
    is_code(alloc, code)
}

/// Whether a value can be written.
pub fn is_value(alloc: Global, value: &Val) -> Result<bool, NoMemory>
    ensures { IfOk result (λ is. IsTrue is ↔ IsWellSpelledVal value.now) }
{
    match value {
        Val::Null => Ok(true),
        Val::Bool(_) => Ok(true),
        Val::Num(n) => {
            let _known = *n;
            Ok(true)
        }
        Val::Str(text) => {
            let _known = text.as_bytes();
            Ok(true)
        }
        Val::Win(_) => Ok(true),
        Val::Node(_) => Ok(true),
        Val::Code(code) => is_code(alloc, code),
    }
}
