//! What the user is shown, and keys with their values, printed.
ghost use Rattle.std.specs.Prelude.{[], ◌∷◌, map};
ghost use Rattle.ff_text.specs.Printed.{spelled};
ghost use Rattle.ff_forms.specs.Canonical.{address, string, word, parens, shown_part_item, shown_item, pair_item, pairs_item};
ghost use Rattle.ff_forms.specs.Heads.{doc_word};
ghost use Rattle.ff_forms.specs.declared.heads.DocHead.TheVariants as doc_head;
ghost use Rattle.ff_printing.specs.Pieces.{Prints, each_after_blank};

use crate::printer::Printer;
use ff_forms::DocHead;
use ff_name::{Text, Url, Worded};
use ff_value::{Pair, ShownPart};

/// Appends what the user is shown of a page.
pub(crate) fn print_page(shown: &[ShownPart], out: &mut Printer)
    ensures { Prints out.old out.new (spelled (shown_item shown.now)) }
{
    print_list(b"page", shown, out)
}

/// Appends what the user is shown of a node.
#[cycle(shown_part)]
fn print_shown_part(part: &ShownPart, out: &mut Printer)
    ensures { Prints out.old out.new (spelled (shown_part_item part.now)) }
{
    match part {
        ShownPart::Text(text) => out.labelled(DocHead::Text, text),
        ShownPart::Link(url, label) => print_link(url, label, out),
        ShownPart::TextBox(text) => out.labelled(DocHead::TextBox, text),
        ShownPart::Button(label) => out.labelled(DocHead::Button, label),
        ShownPart::Div(parts) => print_list(DocHead::Div.word().as_bytes(), parts.as_slice(), out),
    }
}

/// Appends a list of what the user is shown of some nodes.
#[cycle(shown_part)]
fn print_list(head: &[u8], parts: &[ShownPart], out: &mut Printer)
    ensures { Prints out.old out.new (spelled
        (parens (word head.now ∷ map shown_part_item parts.now))) }
{
    out.open_list(head);
    print_parts(parts, out);
    out.close_list();
}

/// Appends what the user is shown of some nodes, with a blank before each.
#[cycle(shown_part)]
fn print_parts(parts: &[ShownPart], out: &mut Printer)
    ensures { Prints out.old out.new (each_after_blank shown_part_item parts.now) }
{
    for part in parts {
        out.bytes(b" ");
        print_shown_part(part, out);
    }
}

fn print_link(url: &Url, label: &Text, out: &mut Printer)
    ensures { Prints out.old out.new (spelled
        (parens (word (doc_word doc_head.Link) ∷ address url.now ∷ string label.now ∷ []))) }
{
    out.open(DocHead::Link);
    out.address(url);
    out.string(label);
    out.close_list();
}

/// Appends keys and values, as a list of lists of two strings.
pub(crate) fn print_pairs(pairs: &[Pair], out: &mut Printer)
    ensures { Prints out.old out.new (spelled (pairs_item pairs.now)) }
{
    match pairs.split_first() {
        None => out.bytes(b"()"),
        Some((first, rest)) => print_some_pairs(first, rest, out),
    }
}

fn print_some_pairs(first: &Pair, rest: &[Pair], out: &mut Printer)
    ensures { Prints out.old out.new (spelled (pairs_item (first.now ∷ rest.now))) }
{
    out.bytes(b"(");
    print_pair(first, out);
    print_further_pairs(rest, out);
    out.close_list();
}

/// Appends keys and values with a blank before each two.
fn print_further_pairs(pairs: &[Pair], out: &mut Printer)
    ensures { Prints out.old out.new (each_after_blank pair_item pairs.now) }
{
    for pair in pairs {
        out.bytes(b" ");
        print_pair(pair, out);
    }
}

fn print_pair(pair: &Pair, out: &mut Printer)
    ensures { Prints out.old out.new (spelled (pair_item pair.now)) }
{
    out.bytes(b"(");
    out.quoted(&pair.key);
    out.string(&pair.value);
    out.close_list();
}
