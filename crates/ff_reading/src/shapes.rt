//! An item as a word or as a list, where it may be nothing else.
ghost use Rattle.std.specs.Prelude.{◌≡◌, IfOk, IfErr, ok_or};
ghost use Rattle.ff_name.specs.Words.{with_word};
ghost use Rattle.ff_forms.specs.Grammar.{reading, head_as};
ghost use Rattle.ff_reading.specs.Shapes.{IsWordAt, IsNoWord, IsListAt, IsNoList};

use ff_forms::SyntaxFault;
use ff_name::{Worded, by_word};
use ff_text::Sexp;

/// The place and the bytes of the word that an item is.
pub(crate) fn as_word(item: &Sexp) -> Result<(u32, &[u8]), SyntaxFault>
    ensures word { IfOk result (λ it. IsWordAt item.now it.0 it.1.now) }
    ensures other { IfErr result (IsNoWord item.now) }
{
    match item {
        Sexp::Word(at, word) => Ok((at.from, word.as_bytes())),
        Sexp::Str(at, _) => Err(SyntaxFault::Place(at.from)),
        Sexp::List(at, _) => Err(SyntaxFault::Place(at.from)),
    }
}

/// The place and the parts of the list that an item is.
pub(crate) fn as_list(item: &Sexp) -> Result<(u32, &[Sexp]), SyntaxFault>
    ensures list { IfOk result (λ it. IsListAt item.now it.0 it.1.now) }
    ensures other { IfErr result (IsNoList item.now) }
{
    match item {
        Sexp::List(at, parts) => Ok((at.from, parts.as_slice())),
        Sexp::Word(at, _) => Err(SyntaxFault::Place(at.from)),
        Sexp::Str(at, _) => Err(SyntaxFault::Place(at.from)),
    }
}

/// The head of a list that begins with this item.
pub(crate) fn head_of<H: Worded>(first: &Sexp) -> Result<H, SyntaxFault>
    ensures { result ≡ head_as H.word_of H.each (reading first.now) }
{
    match first {
        Sexp::Word(at, word) => head_in(at.from, word.as_bytes()),
        Sexp::Str(at, _) => Err(SyntaxFault::Head(at.from)),
        Sexp::List(at, _) => Err(SyntaxFault::Head(at.from)),
    }
}

/// The head that a word at a place is.
fn head_in<H: Worded>(at: u32, word: &[u8]) -> Result<H, SyntaxFault>
    ensures { result ≡ ok_or (with_word H.word_of H.each word.now) (SyntaxFault.Head at) }
{
    match by_word(word) {
        Some(head) => Ok(head),
        None => Err(SyntaxFault::Head(at)),
    }
}
