ghost use Rattle.std.specs.Prelude.{◌≡◌, ◌≢◌, ◌↔◌, ◌<◌, ◌^◌, ℕ, ℤ, pos, negsuc, suc, List, ◌∷◌, IfSome, MatchOption, FitsSigned};
ghost use Rattle.std.specs.Int.{w64};
ghost use Rattle.std.specs.Char.{is_ascii_digit};
ghost use Rattle.std.specs.List.{list_all};
ghost use Rattle.ff_number.specs.Decimal.{nat_text, num_text};
ghost use Rattle.ff_number.specs.Decimal as spelling;
ghost use Rattle.ff_number.specs.Numbers as numbers;

use crate::digits::MOST_DIGITS;

/// The number that these bytes spell: `0`, or digits that begin with 1 to 9. `None` where they
/// spell none below 2^64, and at once where they are more than such a number has digits.
pub fn read_nat(bytes: &[u8]) -> Option<u64>
    ensures spelled { (n : ℕ) → n < 2 ^ 64 → (result ≡ Some n) ↔ (bytes.now ≡ nat_text n) }
    ensures within { IfSome result (λ n. n < 2 ^ 64) }
{
    if bytes.len() > MOST_DIGITS {
        return None;
    }
    if !is_canonical(bytes) {
        return None;
    }
    match str::from_utf8(bytes) {
        Ok(text) => text.parse::<u64>().ok(),
        Err(_) => None,
    }
}

/// The number that these bytes spell: `0`, or digits that begin with 1 to 9, after a minus where it
/// is negative. `None` where they spell none from -2^63 to 2^63 - 1.
pub fn read_num(bytes: &[u8]) -> Option<i64>
    ensures spelled { (n : ℤ) → FitsSigned w64 n → (result ≡ Some n) ↔ (bytes.now ≡ num_text n) }
    ensures within { IfSome result (λ n. FitsSigned w64 n) }
    ensures value { result ≡ numbers.read_num bytes.now }
{
    match strip_minus(bytes) {
        Some(digits) => read_below_zero(digits),
        None => i64::try_from(read_nat(bytes)?).ok(),
    }
}

/// The bytes after the minus that stands first.
fn strip_minus(bytes: &[u8]) -> Option<&[u8]>
    ensures { MatchOption result ((rest : List ℕ) → bytes.now ≢ 45 ∷ rest)
        (λ rest. bytes.now ≡ 45 ∷ rest.now) }
{
    bytes.strip_prefix(b"-")
}

/// The negative number whose size these bytes spell.
fn read_below_zero(digits: &[u8]) -> Option<i64>
    ensures spelled { (n : ℕ) → n < 2 ^ 63 → (result ≡ Some (negsuc n))
        ↔ (digits.now ≡ nat_text (suc n)) }
    ensures negative { (n : ℕ) → result ≢ Some (pos n) }
{
    let past_one = read_nat(digits)?.checked_sub(1)?;
    let past_one = i64::try_from(past_one).ok()?;
    Some(-1 - past_one)
}

fn is_canonical(bytes: &[u8]) -> bool
    ensures { result ≡ spelling.is_canonical bytes.now }
{
    match bytes.split_first() {
        Some((b'0', rest)) => rest.is_empty(),
        Some((first, rest)) => first.is_ascii_digit() && are_digits(rest),
        None => false,
    }
}

fn are_digits(bytes: &[u8]) -> bool
    ensures { result ≡ list_all is_ascii_digit bytes.now }
{
    bytes.iter().all(|b| b.is_ascii_digit())
}
