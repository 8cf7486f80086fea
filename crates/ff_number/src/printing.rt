ghost use Rattle.ff_contract.specs.Appending.{Appends};
ghost use Rattle.ff_number.specs.Decimal.{nat_text, num_text};

use crate::NoMemory;
use crate::digits::Digits;

/// Appends the number in decimal. After want of memory a front of it was appended.
pub fn print_nat(n: u64, out: &mut Vec<u8>) -> Result<(), NoMemory>
    ensures { Appends result out.old.items out.new.items (nat_text n) }
{
    out.extend_from_slice(Digits::of(n).as_slice())
}

/// Appends the number in decimal, a negative one after a minus. After want of memory a front of it
/// was appended.
pub fn print_num(n: i64, out: &mut Vec<u8>) -> Result<(), NoMemory>
    ensures { Appends result out.old.items out.new.items (num_text n) }
{
    out.extend_from_slice(Digits::of_num(n).as_slice())
}
