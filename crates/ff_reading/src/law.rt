//! What the tables of forms say of an item, and what the rules of spelling and of faults say.
ghost use Rattle.std.specs.Prelude.{◌≡◌, ◌↔◌, Ok, Err};
ghost use Rattle.ff_tree.specs.declared.tree.Doc.{Doc};
ghost use Rattle.ff_tree.specs.declared.tree.Expr.{Expr};
ghost use Rattle.ff_value.specs.declared.reply.Resp.{Resp};
ghost use Rattle.ff_text.specs.declared.items.Sexp.{Sexp};
ghost use Rattle.ff_forms.specs.Faults.{FirstFault};
ghost use Rattle.ff_forms.specs.Grammar.{Sort, reading, doc_in, expr_in, resp_in};
ghost use Rattle.ff_forms.specs.Spellings.{SpellsDoc, SpellsExpr, SpellsResp};
ghost use Rattle.ff_forms.specs.declared.fault.SyntaxFault.{SyntaxFault};

/// An item is read exactly where a rule of the forms spells it, and as the value that the rule
/// spells.
pub fn what_is_spelled_is_read()
    ensures docs { (item : Sexp) (doc : Doc) → (doc_in item ≡ Ok doc) ↔ SpellsDoc item doc }
    ensures exprs { (item : Sexp) (expr : Expr) → (expr_in item ≡ Ok expr) ↔ SpellsExpr item expr }
    ensures resps { (item : Sexp) (resp : Resp) → (resp_in item ≡ Ok resp) ↔ SpellsResp item resp }
{}

/// An item is refused exactly where it has a first fault, and with that fault.
pub fn what_is_at_fault_is_refused()
    ensures { (sort : Sort) (item : Sexp) (fault : SyntaxFault) → (reading item sort ≡ Err fault)
        ↔ FirstFault sort item fault }
{}
