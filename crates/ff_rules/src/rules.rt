//! Rules, read from bytes.
ghost use Rattle.std.specs.Prelude.{◌≡◌, List, IfOk, IfErr, Ok, Err, All};
ghost use Rattle.ff_contract.specs.Answering.{Answers};
ghost use Rattle.ff_rules.specs.Lines.{ReadsRules, IsFound};
ghost use Rattle.ff_route.specs.Offering.{IsRuleOf};
ghost use Rattle.ff_route.specs.declared.rule.Rule.{Rule};
ghost use Rattle.ff_rules.specs.declared.fault.ReleaseFault.{ReleaseFault};
ghost use Rattle.ff_rules.specs.declared.rule.TheConstants.{MOST_RULES_BYTES};

use crate::fault::{ReleaseFail, ReleaseFault};
use crate::lines::read_line;
use crate::rule::{MOST_RULES, MOST_RULES_BYTES, Rules};
use ff_io::split_line;
use ff_lattice::Lattice;
use std::alloc::Global;

impl Rules {
    /// The rules that these bytes give, a line each. Lines of blanks alone and comments give none.
    /// The refusals, in their order: over `MOST_RULES_BYTES` bytes; then those of the first bad
    /// line: it isn't a text of items, it isn't a kind, a word, a number below 2^32 and a form, the
    /// word names no level of the lattice, it is one rule more than `MOST_RULES`.
    pub fn read(alloc: Global, bytes: &[u8], lattice: &Lattice) -> Result<Rules, ReleaseFail>
        ensures found { IfOk result (λ rules. ReadsRules lattice.now bytes.now (Ok rules)) }
        ensures within { IfOk result (All (IsRuleOf lattice.now)) }
        ensures only { (rules : List Rule) → ReadsRules lattice.now bytes.now (Ok rules)
            → Answers result (Ok rules) (Err ReleaseFail.NoMemory) }
        ensures fault { IfErr result (λ fail. (fault : ReleaseFault)
            → fail ≡ ReleaseFail.Fault fault → ReadsRules lattice.now bytes.now (Err fault)) }
        ensures exact { (fault : ReleaseFault) → ReadsRules lattice.now bytes.now (Err fault)
            → Answers result (Err (ReleaseFail.Fault fault)) (Err ReleaseFail.NoMemory) }
    {
        first_read(alloc, bytes, lattice)
    }
}

/// The rules or the first fault. It stands apart for the prover alone: `Rules::read` says more of
/// its answer.
fn first_read(alloc: Global, bytes: &[u8], lattice: &Lattice) -> Result<Rules, ReleaseFail>
    ensures found { IsFound (ReadsRules lattice.now bytes.now) result }
    ensures within { IfOk result (All (IsRuleOf lattice.now)) }
{
    if bytes.len() > MOST_RULES_BYTES {
        return Err(ReleaseFail::Fault(ReleaseFault::TooLarge));
    }
    let mut rules = Rules::none(alloc);
    let mut rest = bytes;
    let mut number: u32 = 1;
    'lines: while !rest.is_empty() {
        let (line, more) = split_line(rest);
        match read_line(alloc, number, line, lattice)? {
            Some(rule) => {
                if rules.as_slice().len() >= MOST_RULES {
                    return Err(ReleaseFail::Fault(ReleaseFault::TooMany(number)));
                }
                rules.push(rule)?;
            }
            None => (),
        }
        rest = more;
        number += 1;
    }
    Ok(rules)
}
