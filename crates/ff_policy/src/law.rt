ghost use Rattle.std.specs.Prelude.{◌≡◌, ℕ, ◌<◌, Bool, true, Some, None, List, [], length, get_or, Result, Err};
ghost use Rattle.std.specs.Cmp.Lexicographic.{slice_cmp};
ghost use Rattle.std.specs.List.{find};
ghost use Rattle.std.specs.Ordering.{nat_cmp};
ghost use Rattle.std.specs.declared.cmp.Ordering.TheVariants.{Greater};
ghost use Rattle.serde_json.specs.Data.{Data, Members};
ghost use Rattle.serde_json.specs.Read.{read};
ghost use Rattle.ff_policy.specs.declared.fault.PolicyFault.{PolicyFault};
ghost use Rattle.ff_policy.specs.Assignment.{Key, Assignment, covers, key_at, longest, IsLongest};
ghost use Rattle.ff_policy.specs.ByteOrder.{AreRising, IsInOrder};
ghost use Rattle.ff_policy.specs.Members.{keys_of, plan_in};
ghost use Rattle.ff_policy.specs.Reading.{Reads};
ghost use Rattle.ff_policy.specs.Table.{IsMemberFault};

/// Bytes are a policy or have a fault, one of them and not both.
pub fn bytes_read_as_one_policy_or_fault()
    ensures some { (bytes : List ℕ) → (answer : Result Assignment PolicyFault)
        × Reads bytes answer }
    ensures one { (bytes : List ℕ) (r s : Result Assignment PolicyFault) → Reads bytes r
        → Reads bytes s → r ≡ s }
{}

/// A value is no plan of a policy exactly where its members have a fault, which is the first one in
/// the order of their table.
#[tactic(auto, using(crate::proofs::MemberFaults::member_fault, crate::proofs::MemberFaults::fault_member))]
pub fn the_first_fault_of_the_members_decides()
    ensures found { (value : Data) (fault : PolicyFault) → plan_in value ≡ Err fault
        → IsMemberFault value fault }
    ensures exact { (value : Data) (fault : PolicyFault) → IsMemberFault value fault
        → plan_in value ≡ Err fault }
{}

/// The key that stands for a domain, where it has none of its own, covers it, and each key that
/// does is at most as long. Where there is no such key, none covers it.
#[tactic(auto, using(crate::proofs::Longest::longest_is, crate::proofs::Longest::none_covers))]
pub fn the_longest_key_is_taken()
    ensures found { (domain : List ℕ) (keys : List Key) (key : Key) → longest domain keys ≡ Some key
        → IsLongest domain keys key }
    ensures none { (domain : List ℕ) (keys : List Key) → longest domain keys ≡ None → (k : ℕ)
        → k < length keys → ¬ (covers (key_at keys k).key domain ≡ true) }
{}

/// The members of a value that is read stand in byte order, in itself and in each object within it.
#[tactic(auto, using(crate::proofs::Rising::read_in_order))]
pub fn members_stand_in_byte_order()
    ensures { (bytes : List ℕ) (value : Data) → read bytes ≡ Some value → IsInOrder value }
{}

/// So the first of an object's keys that passes a test is the least of those that pass it.
#[tactic(auto, using(crate::proofs::Rising::first_is_least))]
pub fn the_first_key_is_the_least()
    ensures { (test : List ℕ → Bool) (members : Members) (name : List ℕ) → AreRising members
        → find test (keys_of members) ≡ Some name → (k : ℕ) → k < length (keys_of members)
        → test (get_or (keys_of members) k []) ≡ true
        → ¬ (slice_cmp nat_cmp name (get_or (keys_of members) k []) ≡ Greater) }
{}
