//! Nothing is lost in what is saved.
ghost use Rattle.std.specs.Prelude.{◌≡◌, ◌≤◌, ℕ, List};
ghost use Rattle.ff_lattice.specs.declared.names.TheConstants.{MOST_LEVELS};
ghost use Rattle.ff_lattice.specs.Order.{size};
ghost use Rattle.ff_pool.specs.Pooled.{Pooled};
ghost use Rattle.ff_pool.specs.Restored.{IsResting};
ghost use Rattle.ff_policy.specs.Assignment.{Assignment, IsAssignment};
ghost use Rattle.ff_save.specs.Saved.{saved_recs, saved_text};
ghost use Rattle.ff_save.specs.Whole.{HasFault, IsSaved};
ghost use Rattle.ff_saved_rows.specs.declared.fault.SavedFault.{SavedFault};

/// Pools at rest, of as many levels and with the same fuel, that are saved as the same records are
/// the same.
pub fn equal_records_are_of_equal_pools()
    ensures { (n fuel : ℕ) (p q : Pooled) → n ≤ MOST_LEVELS → IsResting n fuel p
        → IsResting n fuel q → saved_recs p ≡ saved_recs q → p ≡ q }
{}

/// Bytes are the saved text of at most one pool: a pool at rest that would be saved as them is the
/// one that is read from them, whether or not anything else is known of its lines.
pub fn a_saved_text_is_of_one_pool()
    ensures { (policy : Assignment) (bytes : List ℕ) (a b : Pooled) → IsAssignment policy
        → IsSaved policy bytes a → IsResting (size policy.order) policy.fuel b
        → bytes ≡ saved_text policy (saved_recs b) → a ≡ b }
{}

/// All bytes are the saved text of a pool or have a fault: it can't be that they are none and have
/// none. A saved text has no fault, and no bytes have two. (So `read_saved` has one right answer,
/// want of memory aside.)
pub fn bytes_are_a_state_or_have_a_fault()
    ensures some { (policy : Assignment) (bytes : List ℕ)
        → ¬ (((pool : Pooled) → ¬ IsSaved policy bytes pool)
        × ((fault : SavedFault) → ¬ HasFault policy bytes fault)) }
    ensures faultless { (policy : Assignment) (bytes : List ℕ) (pool : Pooled) (fault : SavedFault)
        → IsSaved policy bytes pool → ¬ HasFault policy bytes fault }
    ensures one { (policy : Assignment) (bytes : List ℕ) (a b : SavedFault)
        → HasFault policy bytes a → HasFault policy bytes b → a ≡ b }
{}
