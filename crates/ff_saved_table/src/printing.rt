//! The rows of stores, and lines, printed.
use anyhow::Result;
use ff_name::NoMemory;
use ff_save::put_stores;
use ff_saved_rows::Printer;
use ff_stores::Stores;
use std::alloc::Global;

/// Prints the rows of stores.
pub fn print_rows(rt: &HostRuntime, stores: &Stores) -> Result<()> {
    let text = rows_text(rt.alloc(), stores)?;
    print_lines(rt, text.as_slice())
}

fn rows_text(alloc: Global, stores: &Stores) -> Result<Vec<u8>, NoMemory> {
    let mut text = Vec::new(alloc);
    let mut printer = Printer::after(&mut text)?;
    put_stores(stores, &mut printer);
    printer.end(&mut text)?;
    Ok(text)
}

/// Prints the lines of a text.
pub fn print_lines(rt: &HostRuntime, text: &[u8]) -> Result<()> {
    for line in str::from_utf8(text)?.lines() {
        println!(rt; "  {line}")?;
    }
    Ok(())
}
