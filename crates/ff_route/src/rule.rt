//! What a release rule offers to the levels of an input.
ghost use Rattle.std.specs.Prelude.{◌≡◌, ◌<◌, IfOk, bytes_eq};
ghost use Rattle.ff_lattice.specs.Order.{size};
ghost use Rattle.ff_value.specs.Kinds.{word_of};
ghost use Rattle.ff_value.specs.Offers.{offered};
ghost use Rattle.ff_route.specs.Route.{IsTagged};
ghost use Rattle.ff_route.specs.Offering.{IsRuleOf, is_of_use, rule_offer, rule_offers};
ghost use Rattle.ff_route.specs.Offering as spec;

use crate::NoMemory;
use crate::route::{mask, sees};
use ff_policy::Policy;
use ff_value::{Input, Kind, Level, Offer, Offers, Worded, same_offer};
use std::alloc::Global;

/// A rule: inputs of a kind may pass to the levels at or above a level, so many of them.
#[derive(Clone, Copy, Debug, PartialEq, Eq)]
pub struct Rule {
    /// Inputs of this kind.
    pub kind: Kind,
    /// The least level that they pass to.
    pub level: Level,
    /// How many of them.
    pub quota: u32,
    /// Whether they pass whole; else masked.
    pub whole: bool,
}

/// Whether a rule is of use at an input: it is of its kind, something is left of it, and it offers
/// some level other than what that level sees.
pub fn is_of_use(
    alloc: Global,
    policy: &Policy,
    rule: Rule,
    input: &Input,
) -> Result<bool, NoMemory>
    requires tag { IsTagged policy.now.order input.now }
    requires level { IsRuleOf policy.now.order rule }
    ensures { IfOk result (λ is. is ≡ is_of_use policy.now input.now rule) }
{
    if !is_kind(rule.kind, input.act.kind()) {
        return Ok(false);
    }
    if rule.quota == 0 {
        return Ok(false);
    }
    for number in 0..policy.lattice().size() {
        if differs(alloc, policy, rule, input, Level(number))? {
            return Ok(true);
        }
    }
    Ok(false)
}

/// Whether two kinds are the same: each has a word of its own.
fn is_kind(a: Kind, b: Kind) -> bool
    ensures { result ≡ bytes_eq (word_of a) (word_of b) }
{
    a.word() == b.word()
}

/// Whether a rule offers a level other than what that level sees.
fn differs(
    alloc: Global,
    policy: &Policy,
    rule: Rule,
    input: &Input,
    l: Level,
) -> Result<bool, NoMemory>
    requires tag { IsTagged policy.now.order input.now }
    requires level { IsRuleOf policy.now.order rule }
    requires within { l.0 < size policy.now.order }
    ensures { IfOk result (λ is. is ≡ spec.differs policy.now rule input.now l.0) }
{
    let offer = rule_offer(alloc, policy, rule, input, l)?;
    let seen = sees(alloc, policy, l, input)?;
    Ok(!same_offer(input, &offer, &seen))
}

/// What a rule offers to the levels, in their order.
pub fn rule_offers<'a>(
    alloc: Global,
    policy: &Policy,
    rule: Rule,
    input: &'a Input,
) -> Result<Offers<'a>, NoMemory>
    requires tag { IsTagged policy.now.order input.now }
    requires level { IsRuleOf policy.now.order rule }
    ensures { IfOk result (λ offers. offers ≡ rule_offers policy.now rule input.now) }
{
    let mut offers = Vec::new(alloc);
    for number in 0..policy.lattice().size() {
        offers.push(rule_offer(alloc, policy, rule, input, Level(number))?)?;
    }
    Ok(Offers::of(input, offers))
}

/// What a rule offers to a level.
fn rule_offer(
    alloc: Global,
    policy: &Policy,
    rule: Rule,
    input: &Input,
    l: Level,
) -> Result<Offer, NoMemory>
    requires tag { IsTagged policy.now.order input.now }
    requires level { IsRuleOf policy.now.order rule }
    requires within { l.0 < size policy.now.order }
    ensures { IfOk result (λ offer. offered input.now offer
        ≡ rule_offer policy.now rule input.now l.0) }
{
    if !policy.lattice().leq(rule.level, l) {
        return sees(alloc, policy, l, input);
    }
    if rule.whole {
        return Ok(Offer::Whole);
    }
    let seen = sees(alloc, policy, l, input)?;
    match &seen {
        Offer::Nothing => Ok(Offer::Other(mask(alloc, input)?)),
        _ => Ok(seen),
    }
}
