//! What documents, expressions and responses weigh, by the items that they are printed as.
ghost use Rattle.std.specs.Prelude.{◌≡◌};
ghost use Rattle.ff_tree.specs.Weight.{doc_weight, expr_weight};
ghost use Rattle.ff_tree.specs.declared.tree.Doc.{Doc};
ghost use Rattle.ff_tree.specs.declared.tree.Expr.{Expr};
ghost use Rattle.ff_value.specs.Weight.{resp_weight};
ghost use Rattle.ff_value.specs.declared.reply.Resp.{Resp};
ghost use Rattle.ff_forms.specs.Canonical.{doc_item, expr_item, resp_item};
ghost use Rattle.ff_printing.specs.Weighed.{item_weight};

/// A document, an expression and a response weigh 16 for each item of their canonical notation,
/// lists included, and the bytes of each string value.
pub fn a_weight_is_that_of_its_items()
    ensures docs { (doc : Doc) → doc_weight doc ≡ item_weight (doc_item doc) }
    ensures exprs { (expr : Expr) → expr_weight expr ≡ item_weight (expr_item expr) }
    ensures resps { (resp : Resp) → resp_weight resp ≡ item_weight (resp_item resp) }
{}
