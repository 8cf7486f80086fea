//! Pieces of a line, put one after another.
ghost use Rattle.std.specs.Prelude.{◌≡◌, ◌≢◌, ◌<◌, ◌≤◌, [], ◌∷◌, ◌++◌, drop, flat_map, get_or, length, take, IfOk, OnOk, OnErr};
ghost use Rattle.std.specs.Str.{IsUtf8};
ghost use Rattle.ff_number.specs.Decimal.{nat_text};
ghost use Rattle.ff_text.specs.Printed.{quoted, spelled_byte};
ghost use Rattle.ff_status.specs.Putting.{Puts, Stops};
ghost use Rattle.ff_status.specs.Words.{at_line, paired};

use ff_io::{Failed, Sink};
use ff_number::Digits;
use ff_text::{Escaped, is_plain};

/// Puts all of a text, so that no character of it is cut. It makes no write where there is none.
///
/// # Errors
///
/// `Failed` where a write failed; a front of the bytes was put before it.
pub(crate) fn put<E: Sink>(bytes: &[u8], err: &mut E) -> Result<(), Failed>
    requires { IsUtf8 bytes.now }
    ensures done { OnOk result (Puts (E.put err.old) (E.put err.new) (E.faults err.old)
        (E.faults err.new) bytes.now) }
    ensures stopped { OnErr result (Stops (E.put err.old) (E.put err.new) (E.faults err.old)
        (E.faults err.new) bytes.now) }
    ensures none { length bytes.now ≡ 0 → err.new ≡ err.old }
{
    let mut left = bytes;
    while !left.is_empty() {
        let n = err.write(left)?;
        left = &left[n..];
    }
    Ok(())
}

/// Puts words, and then a text as it is.
#[tactic(auto, using(crate::proofs::Sending::puts_both, crate::proofs::Sending::stops_first, crate::proofs::Sending::stops_second, crate::proofs::Whole::ascii))]
pub(crate) fn put_both<E: Sink>(words: &[u8], text: &[u8], err: &mut E) -> Result<(), Failed>
    requires words { IsUtf8 words.now }
    requires text { IsUtf8 text.now }
    ensures done { OnOk result (Puts (E.put err.old) (E.put err.new) (E.faults err.old)
        (E.faults err.new) (words.now ++ text.now)) }
    ensures stopped { OnErr result (Stops (E.put err.old) (E.put err.new) (E.faults err.old)
        (E.faults err.new) (words.now ++ text.now)) }
{
    put(words, err)?;
    put(text, err)
}

/// Puts words, and then a number in decimal.
pub(crate) fn put_number<E: Sink>(words: &[u8], n: u64, err: &mut E) -> Result<(), Failed>
    requires { IsUtf8 words.now }
    ensures done { OnOk result (Puts (E.put err.old) (E.put err.new) (E.faults err.old)
        (E.faults err.new) (words.now ++ nat_text n)) }
    ensures stopped { OnErr result (Stops (E.put err.old) (E.put err.new) (E.faults err.old)
        (E.faults err.new) (words.now ++ nat_text n)) }
{
    let digits = Digits::of(n);
    put_both(words, digits.as_slice(), err)
}

/// Puts the number of a line, and then words.
#[tactic(auto, using(crate::proofs::Sending::puts_both, crate::proofs::Sending::stops_first, crate::proofs::Sending::stops_second, crate::proofs::Whole::ascii))]
pub(crate) fn put_at_line<E: Sink>(line: u32, words: &[u8], err: &mut E) -> Result<(), Failed>
    requires { IsUtf8 words.now }
    ensures done { OnOk result (Puts (E.put err.old) (E.put err.new) (E.faults err.old)
        (E.faults err.new) (at_line line words.now)) }
    ensures stopped { OnErr result (Stops (E.put err.old) (E.put err.new) (E.faults err.old)
        (E.faults err.new) (at_line line words.now)) }
{
    put_number(b"line ", line as u64, err)?;
    put_both(b": ", words, err)
}

/// Puts words, and then two texts as they are, with a blank between them.
#[tactic(auto, using(crate::proofs::Sending::puts_both, crate::proofs::Sending::stops_first, crate::proofs::Sending::stops_second, crate::proofs::Whole::ascii))]
pub(crate) fn put_pair<E: Sink>(
    words: &[u8],
    first: &[u8],
    second: &[u8],
    err: &mut E,
) -> Result<(), Failed>
    requires words { IsUtf8 words.now }
    requires first { IsUtf8 first.now }
    requires second { IsUtf8 second.now }
    ensures done { OnOk result (Puts (E.put err.old) (E.put err.new) (E.faults err.old)
        (E.faults err.new) (words.now ++ paired first.now second.now)) }
    ensures stopped { OnErr result (Stops (E.put err.old) (E.put err.new) (E.faults err.old)
        (E.faults err.new) (words.now ++ paired first.now second.now)) }
{
    put(words, err)?;
    put(first, err)?;
    put_both(b" ", second, err)
}

/// Puts words, and then a text as a string in its canonical spelling.
#[tactic(auto, using(crate::proofs::Sending::puts_both, crate::proofs::Sending::stops_first, crate::proofs::Sending::stops_second, crate::proofs::Whole::ascii))]
pub(crate) fn put_quoted<E: Sink>(words: &[u8], text: &[u8], err: &mut E) -> Result<(), Failed>
    requires words { IsUtf8 words.now }
    requires text { IsUtf8 text.now }
    ensures done { OnOk result (Puts (E.put err.old) (E.put err.new) (E.faults err.old)
        (E.faults err.new) (words.now ++ quoted text.now)) }
    ensures stopped { OnErr result (Stops (E.put err.old) (E.put err.new) (E.faults err.old)
        (E.faults err.new) (words.now ++ quoted text.now)) }
{
    put(words, err)?;
    put_string(text, err)
}

#[tactic(auto, using(crate::proofs::Sending::puts_both, crate::proofs::Sending::stops_first, crate::proofs::Sending::stops_second, crate::proofs::Whole::ascii))]
fn put_string<E: Sink>(text: &[u8], err: &mut E) -> Result<(), Failed>
    requires { IsUtf8 text.now }
    ensures done { OnOk result (Puts (E.put err.old) (E.put err.new) (E.faults err.old)
        (E.faults err.new) (quoted text.now)) }
    ensures stopped { OnErr result (Stops (E.put err.old) (E.put err.new) (E.faults err.old)
        (E.faults err.new) (quoted text.now)) }
{
    put(b"\"", err)?;
    put_value(text, err)?;
    put(b"\"", err)
}

/// Puts what stands for a string's value between its marks. Each longest run of bytes that stand
/// for themselves is one piece, so that no character of a text is cut.
fn put_value<E: Sink>(text: &[u8], err: &mut E) -> Result<(), Failed>
    requires { IsUtf8 text.now }
    ensures done { OnOk result (Puts (E.put err.old) (E.put err.new) (E.faults err.old)
        (E.faults err.new) (flat_map spelled_byte text.now)) }
    ensures stopped { OnErr result (Stops (E.put err.old) (E.put err.new) (E.faults err.old)
        (E.faults err.new) (flat_map spelled_byte text.now)) }
{
    let mut rest = text;
    while !rest.is_empty() {
        let n = put_run(rest, err)?;
        rest = &rest[n..];
    }
    Ok(())
}

/// Puts the bytes at the front that stand for themselves, as one piece, and what stands for the
/// byte after them, if there is one. Answers how many bytes of the value were put.
fn put_run<E: Sink>(text: &[u8], err: &mut E) -> Result<usize, Failed>
    requires { IsUtf8 text.now }
    ensures done { IfOk result (λ n. Puts (E.put err.old) (E.put err.new) (E.faults err.old)
        (E.faults err.new) (flat_map spelled_byte (take n text.now))) }
    ensures bound { IfOk result (λ n. n ≤ length text.now) }
    ensures some { IfOk result (λ n. 0 < length text.now → 0 < n) }
    ensures whole { IfOk result (λ n. IsUtf8 (drop n text.now)) }
    ensures stopped { OnErr result (Stops (E.put err.old) (E.put err.new) (E.faults err.old)
        (E.faults err.new) (flat_map spelled_byte text.now)) }
{
    let n = plain_front(text);
    put(&text[..n], err)?;
    if n == text.len() {
        return Ok(n);
    }
    put_byte(text[n], err)?;
    Ok(n + 1)
}

/// How many bytes at the front stand for themselves.
fn plain_front(text: &[u8]) -> usize
    ensures bound { result ≤ length text.now }
    ensures plain { flat_map spelled_byte (take result text.now) ≡ take result text.now }
    ensures ascii { result < length text.now → get_or text.now result 0 < 128 }
    ensures longest { result < length text.now
        → spelled_byte (get_or text.now result 0) ≢ get_or text.now result 0 ∷ [] }
{
    let mut n = 0;
    while n < text.len() && is_plain(text[n]) {
        n += 1;
    }
    n
}

/// Puts what stands for a byte of ASCII in a string's value.
fn put_byte<E: Sink>(b: u8, err: &mut E) -> Result<(), Failed>
    requires { b < 128 }
    ensures done { OnOk result (Puts (E.put err.old) (E.put err.new) (E.faults err.old)
        (E.faults err.new) (spelled_byte b)) }
    ensures stopped { OnErr result (Stops (E.put err.old) (E.put err.new) (E.faults err.old)
        (E.faults err.new) (spelled_byte b)) }
{
    put(Escaped::of(b).as_slice(), err)
}
