use ff_value::{NoMemory, Val};
use std::alloc::Global;

/// The longest text that is printed whole, in bytes.
const MOST_PRINTED: usize = 60;

/// The value as an operand is spelled; a long text as `*` and its length.
pub fn of(alloc: Global, value: &Val) -> Result<String, NoMemory> {
    match value {
        Val::Null => format!(in alloc; "null"),
        Val::Bool(b) => format!(in alloc; "{b}"),
        Val::Num(n) => format!(in alloc; "{n}"),
        Val::Str(text) => spelled(alloc, text.as_bytes()),
        Val::Win(window) => format!(in alloc; "w{}", window.0),
        Val::Node(node) => format!(in alloc; "n{}", node.0),
        Val::Code(_) => format!(in alloc; "fn"),
    }
}

fn spelled(alloc: Global, bytes: &[u8]) -> Result<String, NoMemory> {
    match str::from_utf8(bytes) {
        Ok(text) if bytes.len() <= MOST_PRINTED => format!(in alloc; "'{text}"),
        _ => format!(in alloc; "*{}", bytes.len()),
    }
}
