ghost use Rattle.std.specs.Prelude.{◌≡◌, ◌↔◌, ℕ, ◌<◌, ◌≤◌, ◌⊎◌, true, false, None, Option, Some, List, length, map, option_and_then};
ghost use Rattle.ff_confinement.specs.Copies.{Levels};
ghost use Rattle.ff_confinement.specs.Laws.{IsWord};
ghost use Rattle.ff_value.specs.declared.input.Input.{Input};
ghost use Rattle.ff_value.specs.declared.output.Out.{Out};
ghost use Rattle.ff_value.specs.Spelled.{IsWellSpelledInput};
ghost use Rattle.ff_lattice.specs.Order.{leq, size};
ghost use Rattle.ff_policy.specs.Assignment.{Assignment, IsAssignment, presence, content};
ghost use Rattle.ff_route.specs.Route.{IsTagged, mask, offers, sees, the_levels};
ghost use Rattle.ff_route.specs.Offering.{left_of};
ghost use Rattle.ff_route.specs.Released.{all_offers, uses};
ghost use Rattle.ff_route.specs.declared.rule.Rule.{Rule};

/// To mask an input twice is to mask it once.
pub fn masking_twice_is_masking_once()
    ensures { (i : Input) → mask (mask i) ≡ mask i }
{}

/// A masked input has the presence and the content of its input, so who sees it is who would see
/// the input.
#[tactic(auto, using(crate::proofs::Masks::same_presence, crate::proofs::Masks::same_content))]
pub fn a_masked_input_has_the_levels_of_its_input()
    ensures presence { (policy : Assignment) (i : Input)
        → presence policy (mask i) ≡ presence policy i }
    ensures content { (policy : Assignment) (i : Input)
        → content policy (mask i) ≡ content policy i }
{}

/// What is seen of an input is that input or the masked one, with its tag, and it is spelled where
/// the input is.
#[tactic(auto, using(crate::proofs::Fits::sees_whole_or_masked, crate::proofs::Fits::sees_tagged, crate::proofs::Fits::sees_spelled))]
pub fn what_is_seen_is_the_input_or_its_mask()
    ensures found { (policy : Assignment) (print : Out → List ℕ) (l : ℕ) (i x : Input)
        → (the_levels policy print).sees l i ≡ Some x → (x ≡ i) ⊎ (x ≡ mask i) }
    ensures tagged { (policy : Assignment) (print : Out → List ℕ) (l : ℕ) (i x : Input)
        → IsTagged policy.order i → (the_levels policy print).sees l i ≡ Some x
        → IsTagged policy.order x }
    ensures spelled { (policy : Assignment) (print : Out → List ℕ) (l : ℕ) (i x : Input)
        → IsWellSpelledInput i → (the_levels policy print).sees l i ≡ Some x
        → IsWellSpelledInput x }
{}

/// What a lower level sees of an input is what it sees of that which a higher level sees of it.
#[tactic(auto, using(crate::proofs::Fits::sees_below))]
pub fn a_lower_level_sees_no_more()
    ensures { (policy : Assignment) (print : Out → List ℕ) (k l : ℕ) (i : Input)
        → IsAssignment policy → (the_levels policy print).leq k l ≡ true
        → (the_levels policy print).sees k i ≡ option_and_then ((the_levels policy print).sees k)
        ((the_levels policy print).sees l i) }
{}

/// Each output has a level of the policy.
#[tactic(auto, using(crate::proofs::Fits::level_ok))]
pub fn each_output_has_a_level()
    ensures { (policy : Assignment) (print : Out → List ℕ) (o : Out) → IsAssignment policy
        → (the_levels policy print).level_out o < (the_levels policy print).count }
{}

/// The name of a level is a word, and no two levels have one name.
#[tactic(auto, using(crate::proofs::Fits::name_ok, crate::proofs::Fits::names_differ))]
pub fn names_tell_levels_apart()
    ensures word { (policy : Assignment) (print : Out → List ℕ) (l : ℕ) → IsAssignment policy
        → l < (the_levels policy print).count → IsWord ((the_levels policy print).name l) }
    ensures apart { (policy : Assignment) (print : Out → List ℕ) (k l : ℕ) → IsAssignment policy
        → k < (the_levels policy print).count → l < (the_levels policy print).count
        → (the_levels policy print).name k ≡ (the_levels policy print).name l → k ≡ l }
{}

/// The presence of an input is at or below its content, so a level sees nothing of it exactly where
/// its presence isn't at or below that level.
pub fn nothing_is_seen_exactly_below_the_presence()
    ensures ordered { (policy : Assignment) (i : Input) → IsAssignment policy
        → IsTagged policy.order i → leq policy.order (presence policy i) (content policy i) ≡ true }
    ensures nothing { (policy : Assignment) (l : ℕ) (i : Input) → IsAssignment policy
        → IsTagged policy.order i → (sees policy l i ≡ None)
        ↔ (leq policy.order (presence policy i) l ≡ false) }
{}

/// Whatever inputs come, a rule makes the offers for at most as many as its quota.
pub fn a_rule_makes_no_more_offers_than_its_quota()
    ensures { (p : Assignment) (rules : List Rule) (j : ℕ) (is : List Input) → j < length rules
        → uses p rules j is ≤ left_of rules j }
{}

/// Where no rule makes the offers for any of the inputs, the levels are offered what they see.
pub fn rules_that_make_no_offers_leave_what_is_seen()
    ensures { (p : Assignment) (rules : List Rule) (is : List Input)
        → ((j : ℕ) → j < length rules → uses p rules j is ≡ 0)
        → all_offers p rules is ≡ map (offers p) is }
{}
