//! The generator and its lines.
ghost use Rattle.std.specs.Prelude.{◌≡◌, ◌<◌, ◌^◌, IfOk};
ghost use Rattle.ff_contract.specs.Appending.{Appends};
ghost use Rattle.ff_gen.specs.Workload as spec;

use ff_number::print_nat;
use std::alloc::{AllocError, Global};
use std::marker::Model;

/// The answer of a call that found no memory.
pub type NoMemory = AllocError;

/// The most lines that a command asks for.
pub const MOST_LINES: u32 = 100_000;

/// The page that a reply brings: what is typed into its box is sent to another domain, and its
/// button shows what the box has.
const PAGE: &[u8] =
    b"reply a.com 0 (doc () (box b \"\" (fn (n) (ask \"http://b.com/q\" (text n) (fn (r) null)))) (button g \"go\" (fn (n) (set-text n (cat \"s\" (text (find (page (self)) \"b\")))))))\n";

/// Draws lines, one after another. It is seen as the number of the line that was drawn last.
#[derive(Drop)]
pub struct Draws {
    number: u64,
}

impl Model for Draws {
    ghost use Rattle.std.specs.Prelude.{ℕ, ◌<◌, ◌^◌};

    ghost Value = { ℕ };

    ghost view = { λ d. d.number };

    ghost invariant = { λ d. d.number < 2 ^ 32 };
}

impl Draws {
    /// Before the first line of those that are drawn from `start`, which counts modulo 2^32.
    pub fn new(start: u64) -> Draws
        ensures { result ≡ spec.number_at start 0 }
    {
        Draws {
            number: start % 4_294_967_296,
        }
    }

    /// Draws the next line and appends it, with its newline. It is refused only for want of memory,
    /// and then a front of the line was appended.
    pub fn next_line(&mut self, out: &mut Vec<u8>) -> Result<(), NoMemory>
        ensures drawn { self.new ≡ spec.following self.old }
        ensures line { Appends result out.old.items out.new.items
            (spec.line_of (spec.draw_of self.new)) }
    {
        self.number = following(self.number);
        print_line(self.number / 65_536, out)
    }
}

/// The lines of a trace of `n` inputs, each with its newline, drawn from `start`, which counts
/// modulo 2^32. They are inputs under the built-in policy. It is refused only for want of memory.
pub fn workload(alloc: Global, start: u64, n: u32) -> Result<Vec<u8>, NoMemory>
    ensures { IfOk result (λ bytes. bytes.items ≡ spec.workload start n) }
{
    let mut bytes = Vec::new(alloc);
    let mut draws = Draws::new(start);
    for _line in 0..n {
        draws.next_line(&mut bytes)?;
    }
    Ok(bytes)
}

/// The number after another one.
fn following(number: u64) -> u64
    requires { number < 2 ^ 32 }
    ensures value { result ≡ spec.following number }
    ensures bound { result < 2 ^ 32 }
{
    (1_664_525 * number + 1_013_904_223) % 4_294_967_296
}

/// Appends the line that a draw chooses, with its newline.
fn print_line(draw: u64, out: &mut Vec<u8>) -> Result<(), NoMemory>
    ensures { Appends result out.old.items out.new.items (spec.line_of draw) }
{
    match draw % 8 {
        0 => put(b"open http://a.com/p\n", out),
        1 => put(PAGE, out),
        2 => print_typed(b"type 0 0 \"t", draw, out),
        3 => print_typed(b"@H type 0 0 \"s", draw, out),
        4 => put(b"click 0 0\n", out),
        5 => put(b"reply b.com 0 (data () \"ok\")\n", out),
        6 => put(b"@H click 0 0\n", out),
        _ => put(b"go 0 http://a.com/p\n", out),
    }
}

/// Appends the bytes.
fn put(bytes: &[u8], out: &mut Vec<u8>) -> Result<(), NoMemory>
    ensures { Appends result out.old.items out.new.items bytes.now }
{
    out.extend_from_slice(bytes)
}

/// Appends a line in which the user types the draw.
fn print_typed(head: &[u8], draw: u64, out: &mut Vec<u8>) -> Result<(), NoMemory>
    ensures { Appends result out.old.items out.new.items (spec.typed head.now draw) }
{
    out.extend_from_slice(head)?;
    print_nat(draw, out)?;
    put(b"\"\n", out)
}
