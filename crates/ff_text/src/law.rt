//! What every text is.
ghost use Rattle.std.specs.Prelude.{◌⊎◌, ℕ, List};
ghost use Rattle.ff_text.specs.Faults.{FirstFault};
ghost use Rattle.ff_text.specs.Notation.{SpellsItems};
ghost use Rattle.ff_text.specs.declared.items.Sexp.{Sexp};
ghost use Rattle.ff_text.specs.declared.items.TextFault.{TextFault};

/// A text spells items, or has a first fault.
pub fn a_text_spells_items_or_has_a_fault()
    ensures { (bytes : List ℕ) → ((items : List Sexp) × SpellsItems bytes items)
        ⊎ ((fault : TextFault) × FirstFault bytes fault) }
{}
