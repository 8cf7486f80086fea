//! Rules of which some were used.
ghost use Rattle.std.specs.Prelude.{◌≡◌, ◌<◌, ◌≤◌, length, IfOk, OnOk, OnErr, MatchOption, All};
ghost use Rattle.ff_route.specs.Route.{IsTagged};
ghost use Rattle.ff_route.specs.Offering.{left_then, released, IsRuleOf};
ghost use Rattle.ff_route.specs.Offering as spec;

use crate::NoMemory;
use crate::rule::Rules;
use ff_policy::Policy;
use ff_route::{Rule, is_of_use, offers, rule_offers};
use ff_value::{Input, Offers};
use std::alloc::Global;
use std::marker::Model;

/// Rules with what is left of each: contracts see them as rules whose quota is what is left.
#[derive(Debug, Drop)]
pub struct Release {
    rules: Vec<Rule>,
}

impl Model for Release {
    ghost use Rattle.std.specs.Prelude.{List};
    ghost use Rattle.ff_route.specs.declared.rule.Rule.{Rule};

    ghost Value = { List Rule };

    ghost view = { λ r. r.rules.items };
}

impl Release {
    /// Rules of which none was used. It takes no memory.
    pub fn new(rules: Rules) -> Release
        ensures { result ≡ rules }
    {
        Release {
            rules: rules.into_vec(),
        }
    }

    /// How many uses are left of the rule at this place, from 0; `None` past the last one.
    pub fn left(&self, rule: u32) -> Option<u32>
        ensures { MatchOption result (length self.now ≤ rule)
            (λ left. (rule < length self.now) × (left ≡ spec.left_of self.now rule)) }
    {
        let place = rule as usize;
        if place < self.rules.len() {
            Some(self.rules[place].quota)
        } else {
            None
        }
    }

    /// What the levels are offered of an input, in their order: what the first rule of use offers,
    /// which then has one less left, or what the levels see. Its one refusal is want of memory, and
    /// nothing is used then.
    pub fn offers<'a>(
        &mut self,
        alloc: Global,
        policy: &Policy,
        input: &'a Input,
    ) -> Result<Offers<'a>, NoMemory>
        requires tag { IsTagged policy.now.order input.now }
        requires levels { All (IsRuleOf policy.now.order) self.old }
        ensures offers { IfOk result (λ offers. offers ≡ released policy.now self.old input.now) }
        ensures left { OnOk result (self.new ≡ left_then policy.now input.now self.old) }
        ensures kept { OnErr result (self.new ≡ self.old) }
    {
        for place in 0..self.rules.len() {
            let rule = self.rules[place];
            if is_of_use(alloc, policy, rule, input)? {
                let row = rule_offers(alloc, policy, rule, input)?;
                self.rules[place].quota -= 1;
                return Ok(row);
            }
        }
        offers(alloc, policy, input)
    }
}
