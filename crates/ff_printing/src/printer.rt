//! What every printer here appends to, piece by piece.
ghost use Rattle.std.specs.Prelude.{◌≡◌, ℕ, List, [], ◌∷◌, true, false, IfOk, OnOk, OnErr};
ghost use Rattle.ff_name.specs.Address.{printed};
ghost use Rattle.ff_text.specs.Printed.{spelled};
ghost use Rattle.ff_number.specs.Decimal.{nat_text, num_text};
ghost use Rattle.ff_tree.specs.declared.tree.Lit.TheVariants as lits;
ghost use Rattle.ff_forms.specs.Canonical.{word, string, address, parens, lit_item, expr_item};
ghost use Rattle.ff_printing.specs.Pieces.{Prints, after_blank};

use crate::print_tree::print_expr;
use ff_name::{Name, NoMemory, Text, Url, Worded};
use ff_number::{print_nat, print_num};
use ff_text::quote;
use ff_tree::{Expr, Lit};
use std::alloc::AllocError;
use std::mem;

/// What is printed so far, piece by piece. Once memory has run out nothing more is appended, and
/// [`Printer::end`] says so.
#[derive(Debug, Drop)]
pub struct Printer {
    bytes: Vec<u8>,
    failed: bool,
}

impl Printer {
    /// A printer that goes on after the bytes of a vector, which it takes out of it.
    pub fn after(out: &mut Vec<u8>) -> Result<Printer, NoMemory>
        ensures done { IfOk result (λ printer. (printer.failed ≡ false)
            × (printer.bytes.items ≡ out.old.items)) }
        ensures kept { OnErr result (out.new.items ≡ out.old.items) }
    {
        match mem::try_take(out) {
            Ok(bytes) => Ok(Printer {
                bytes,
                failed: false,
            }),
            Err(refused) => Err(refused),
        }
    }

    /// Gives the bytes back, and says whether memory had run out.
    pub fn end(self, out: &mut Vec<u8>) -> Result<(), NoMemory>
        ensures bytes { out.new.items ≡ self.bytes.items }
        ensures done { OnOk result (self.failed ≡ false) }
        ensures failed { OnErr result (self.failed ≡ true) }
    {
        *out = self.bytes;
        if self.failed { Err(AllocError) } else { Ok(()) }
    }

    /// Notes that memory has run out, as where what was to be printed could not be had.
    pub fn fail(&mut self)
        ensures { (bytes : List ℕ) → Prints self.old self.new bytes }
    {
        self.failed = true;
    }

    /// Appends bytes.
    pub fn bytes(&mut self, bytes: &[u8])
        ensures { Prints self.old self.new bytes.now }
    {
        if self.failed {
            return;
        }
        let done = self.bytes.extend_from_slice(bytes);
        self.failed = done.is_err();
    }

    /// Appends an opening parenthesis and the word of the list's head.
    pub(crate) fn open<H: Worded>(&mut self, head: H)
        ensures { Prints self.old self.new (40 ∷ H.word_of head) }
    {
        self.open_list(head.word().as_bytes());
    }

    /// Appends an opening parenthesis and the word that heads the list.
    pub(crate) fn open_list(&mut self, head: &[u8])
        ensures { Prints self.old self.new (40 ∷ head.now) }
    {
        self.bytes(b"(");
        self.bytes(head);
    }

    /// Appends a closing parenthesis.
    pub(crate) fn close_list(&mut self)
        ensures { Prints self.old self.new (41 ∷ []) }
    {
        self.bytes(b")");
    }

    /// Appends a blank and a name.
    pub(crate) fn name(&mut self, name: &Name)
        ensures { Prints self.old self.new (after_blank (word name.now)) }
    {
        self.bytes(b" ");
        self.bytes(name.text().as_bytes());
    }

    /// Appends a blank and a list of one name.
    pub(crate) fn parameter(&mut self, name: &Name)
        ensures { Prints self.old self.new (after_blank (parens (word name.now ∷ []))) }
    {
        self.bytes(b" (");
        self.bytes(name.text().as_bytes());
        self.close_list();
    }

    /// Appends a list of a word and a string.
    pub(crate) fn labelled<H: Worded>(&mut self, head: H, text: &Text)
        ensures { Prints self.old self.new (spelled
            (parens (word (H.word_of head) ∷ string text.now ∷ []))) }
    {
        self.open(head);
        self.string(text);
        self.close_list();
    }

    /// Appends a blank and a string.
    pub fn string(&mut self, text: &Text)
        ensures { Prints self.old self.new (after_blank (string text.now)) }
    {
        self.bytes(b" ");
        self.quoted(text);
    }

    /// Appends a string.
    pub(crate) fn quoted(&mut self, text: &Text)
        ensures { Prints self.old self.new (spelled (string text.now)) }
    {
        if self.failed {
            return;
        }
        let done = quote(text, &mut self.bytes);
        self.failed = done.is_err();
    }

    /// Appends a blank and an address.
    pub fn address(&mut self, url: &Url)
        ensures { Prints self.old self.new (after_blank (address url.now)) }
    {
        self.bytes(b" ");
        self.url(url);
    }

    fn url(&mut self, url: &Url)
        ensures { Prints self.old self.new (printed url.now) }
    {
        if self.failed {
            return;
        }
        let done = url.print(&mut self.bytes);
        self.failed = done.is_err();
    }

    fn num(&mut self, n: i64)
        ensures { Prints self.old self.new (num_text n) }
    {
        if self.failed {
            return;
        }
        let done = print_num(n, &mut self.bytes);
        self.failed = done.is_err();
    }

    fn nat(&mut self, n: u64)
        ensures { Prints self.old self.new (nat_text n) }
    {
        if self.failed {
            return;
        }
        let done = print_nat(n, &mut self.bytes);
        self.failed = done.is_err();
    }

    /// Appends a blank and a word, by its bytes.
    pub fn word(&mut self, text: &[u8])
        ensures { Prints self.old self.new (after_blank (word text.now)) }
    {
        self.bytes(b" ");
        self.bytes(text);
    }

    /// Appends a blank and a number.
    pub fn number(&mut self, n: u64)
        ensures { Prints self.old self.new (after_blank (word (nat_text n))) }
    {
        self.bytes(b" ");
        self.nat(n);
    }

    /// Appends a blank and a number that may be below 0.
    pub fn signed(&mut self, n: i64)
        ensures { Prints self.old self.new (after_blank (word (num_text n))) }
    {
        self.bytes(b" ");
        self.num(n);
    }

    /// Appends a blank, and `true` or `false`.
    pub fn truth(&mut self, truth: bool)
        ensures { Prints self.old self.new (after_blank (lit_item (lits.Bool truth))) }
    {
        if truth {
            self.word(b"true");
        } else {
            self.word(b"false");
        }
    }

    /// Appends a blank and an expression.
    pub fn expr(&mut self, expr: &Expr)
        ensures { Prints self.old self.new (after_blank (expr_item expr.now)) }
    {
        self.bytes(b" ");
        print_expr(expr, self);
    }

    /// Appends a literal.
    pub(crate) fn lit(&mut self, lit: &Lit)
        ensures { Prints self.old self.new (spelled (lit_item lit.now)) }
    {
        match lit {
            Lit::Null => self.bytes(b"null"),
            Lit::Bool(true) => self.bytes(b"true"),
            Lit::Bool(false) => self.bytes(b"false"),
            Lit::Num(n) => self.num(*n),
            Lit::Str(text) => self.quoted(text),
        }
    }
}
