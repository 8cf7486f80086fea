//! The printers that other crates call.
ghost use Rattle.std.specs.Prelude.{◌≢◌, All};
ghost use Rattle.std.specs.List.{AllByRecursion};
ghost use Rattle.ff_contract.specs.Appending.{Appends};
ghost use Rattle.ff_text.specs.Printed.{spelled};
ghost use Rattle.ff_tree.specs.Spelled.{IsWellSpelledDoc, IsWellSpelledExpr};
ghost use Rattle.ff_value.specs.Spelled.{IsSpelledShownPart, IsWellSpelledResp};
ghost use Rattle.ff_printing.specs.Again.{ReadsBackDoc, ReadsBackExpr, ReadsBackResp};
ghost use Rattle.ff_forms.specs.Canonical.{doc_item, expr_item, resp_item, shown_item, pairs_item};

use crate::printer::Printer;
use crate::{print_reply, print_shown_part, print_tree};
use ff_name::NoMemory;
use ff_tree::{Doc, Expr};
use ff_value::{Pairs, Resp, Shown};

/// Appends the canonical spelling of a document. After `NoMemory` a front of it was appended.
pub fn print_doc(doc: &Doc, out: &mut Vec<u8>) -> Result<(), NoMemory>
    ensures appends { Appends result out.old.items out.new.items (spelled (doc_item doc.now)) }
    // What is printed is read back.
    ensures again { IsWellSpelledDoc doc.now → ReadsBackDoc (spelled (doc_item doc.now)) doc.now }
{
    let mut printer = Printer::after(out)?;
    print_tree::print_doc(doc, &mut printer);
    printer.end(out)
}

/// Appends the canonical spelling of an expression. After `NoMemory` a front of it was appended.
pub fn print_expr(expr: &Expr, out: &mut Vec<u8>) -> Result<(), NoMemory>
    ensures appends { Appends result out.old.items out.new.items (spelled (expr_item expr.now)) }
    // What is printed is read back.
    ensures again { IsWellSpelledExpr expr.now
        → ReadsBackExpr (spelled (expr_item expr.now)) expr.now }
{
    let mut printer = Printer::after(out)?;
    print_tree::print_expr(expr, &mut printer);
    printer.end(out)
}

/// Appends the canonical spelling of a response. After `NoMemory` a front of it was appended.
pub fn print_resp(resp: &Resp, out: &mut Vec<u8>) -> Result<(), NoMemory>
    ensures appends { Appends result out.old.items out.new.items (spelled (resp_item resp.now)) }
    // What is printed is read back.
    ensures again { IsWellSpelledResp resp.now
        → ReadsBackResp (spelled (resp_item resp.now)) resp.now }
{
    let mut printer = Printer::after(out)?;
    print_reply::print_resp(resp, &mut printer);
    printer.end(out)
}

/// Appends the canonical spelling of a page as the user is shown it. After `NoMemory` a front of it
/// was appended.
pub fn print_shown(shown: &Shown, out: &mut Vec<u8>) -> Result<(), NoMemory>
    ensures appends { Appends result out.old.items out.new.items (spelled (shown_item shown.now)) }
    // It stands in one line.
    ensures one_line { AllByRecursion IsSpelledShownPart shown.now
        → All (λ b. b ≢ 10) (spelled (shown_item shown.now)) }
{
    let mut printer = Printer::after(out)?;
    print_shown_part::print_page(shown.as_slice(), &mut printer);
    printer.end(out)
}

/// Appends the canonical spelling of keys and values, as a list of lists of two strings. After
/// `NoMemory` a front of it was appended.
pub fn print_pairs(pairs: &Pairs, out: &mut Vec<u8>) -> Result<(), NoMemory>
    ensures appends { Appends result out.old.items out.new.items (spelled (pairs_item pairs.now)) }
    ensures one_line { All (λ b. b ≢ 10) (spelled (pairs_item pairs.now)) }
{
    let mut printer = Printer::after(out)?;
    print_shown_part::print_pairs(pairs.as_slice(), &mut printer);
    printer.end(out)
}
