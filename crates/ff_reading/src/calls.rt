//! The readers that other crates call.
ghost use Rattle.std.specs.Prelude.{◌≡◌, ◌⊎◌, Ok, Err, IfOk, IfErr};
ghost use Rattle.ff_tree.specs.Spelled.{IsWellSpelledDoc, IsWellSpelledExpr};
ghost use Rattle.ff_tree.specs.declared.tree.Doc.{Doc};
ghost use Rattle.ff_tree.specs.declared.tree.Expr.{Expr};
ghost use Rattle.ff_value.specs.Spelled.{IsWellSpelledResp};
ghost use Rattle.ff_value.specs.declared.reply.Resp.{Resp};
ghost use Rattle.ff_text.specs.Printed.{IsWellSpelled};
ghost use Rattle.ff_forms.specs.Faults.{FirstFault};
ghost use Rattle.ff_forms.specs.Grammar.{Gives, reading, a_name, parameters, a_document, an_expression, a_response, doc_in, expr_in, resp_in};
ghost use Rattle.ff_forms.specs.Spellings.{SpellsDoc, SpellsExpr, SpellsResp};
ghost use Rattle.ff_forms.specs.declared.fault.SyntaxFault.{SyntaxFault};

use crate::{leaves, reading};
use ff_forms::SyntaxFault;
use ff_text::Sexp;
use ff_value::{Doc, Expr, Name, Names, Resp};
use std::alloc::Global;

/// The document that an item is, or the first fault.
pub fn read_doc(alloc: Global, item: &Sexp) -> Result<Doc, SyntaxFault>
    ensures tables { Gives result (doc_in item.now) }
    ensures found { IfOk result (SpellsDoc item.now) }
    ensures well_spelled { IsWellSpelled item.now → IfOk result IsWellSpelledDoc }
    // What is spelled so is read.
    ensures only { (doc : Doc) → SpellsDoc item.now doc → Gives result (Ok doc) }
    ensures fault { IfErr result (λ fault. (fault ≡ SyntaxFault.NoMemory)
        ⊎ FirstFault a_document item.now fault) }
    // Where this is the first fault, it is answered.
    ensures exact { (fault : SyntaxFault) → FirstFault a_document item.now fault
        → Gives result (Err fault) }
{
    reading::read_doc(alloc, item)
}

/// The expression that an item is, or the first fault.
pub fn read_expr(alloc: Global, item: &Sexp) -> Result<Expr, SyntaxFault>
    ensures tables { Gives result (expr_in item.now) }
    ensures found { IfOk result (SpellsExpr item.now) }
    ensures well_spelled { IsWellSpelled item.now → IfOk result IsWellSpelledExpr }
    // What is spelled so is read.
    ensures only { (expr : Expr) → SpellsExpr item.now expr → Gives result (Ok expr) }
    ensures fault { IfErr result (λ fault. (fault ≡ SyntaxFault.NoMemory)
        ⊎ FirstFault an_expression item.now fault) }
    // Where this is the first fault, it is answered.
    ensures exact { (fault : SyntaxFault) → FirstFault an_expression item.now fault
        → Gives result (Err fault) }
{
    reading::read_expr(alloc, item)
}

/// The response that an item is, or the first fault.
pub fn read_resp(alloc: Global, item: &Sexp) -> Result<Resp, SyntaxFault>
    ensures tables { Gives result (resp_in item.now) }
    ensures found { IfOk result (SpellsResp item.now) }
    ensures well_spelled { IsWellSpelled item.now → IfOk result IsWellSpelledResp }
    // What is spelled so is read.
    ensures only { (resp : Resp) → SpellsResp item.now resp → Gives result (Ok resp) }
    ensures fault { IfErr result (λ fault. (fault ≡ SyntaxFault.NoMemory)
        ⊎ FirstFault a_response item.now fault) }
    // Where this is the first fault, it is answered.
    ensures exact { (fault : SyntaxFault) → FirstFault a_response item.now fault
        → Gives result (Err fault) }
{
    reading::read_resp(alloc, item)
}

/// The name that an item is, or the fault.
pub fn read_name(alloc: Global, item: &Sexp) -> Result<Name, SyntaxFault>
    ensures { Gives result (reading item.now a_name) }
{
    leaves::read_name(alloc, item)
}

/// The parameters that an item lists, variables that differ, or the first fault.
pub fn read_parameters(alloc: Global, item: &Sexp) -> Result<Names, SyntaxFault>
    ensures { Gives result (reading item.now parameters) }
{
    leaves::read_parameters(alloc, item)
}
