//! The operators.

use ff_name::{Worded, by_word};
use ff_tree::Op;
use std::io;

/// Prints of each operator its word, how many operands it has, and its sort.
pub fn show(rt: &HostRuntime) -> io::Result<()> {
    println!(rt; "## Each operator")?;
    for op in Op::all() {
        let found = by_word(op.word().as_bytes()) == Some(*op);
        let sort = if op.is_pure() { "pure" } else { "of a store" };
        println!(rt;
            "{}: {} operands, {sort}, found by its word {found}",
            op.word(),
            op.arity()
        )?;
    }
    let none = by_word::<Op>(b"add").is_none();
    println!(rt; "the word add finds no operator: {none}")
}
