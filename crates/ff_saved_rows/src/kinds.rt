//! The words that begin rows, and lists within rows.
use ff_name::Worded;

/// A kind of row: what its line begins with.
#[derive(Clone, Copy, Debug, PartialEq, Eq)]
pub enum RowKind {
    /// The first row: what the lines are.
    Head,
    /// The policy, as it is printed.
    Policy,
    /// The levels of a class.
    Class,
    /// The mass of its stores.
    Mass,
    /// An activation.
    Act,
    /// A variable of the activation before it.
    Var,
    /// A node.
    Node,
    /// A handler of the node before it.
    On,
    /// The children of the node before them.
    Kids,
    /// A page.
    Page,
    /// A script of the page before it, which may run.
    Ready,
    /// A slot of the page before it, which waits for a script.
    Wait,
    /// A window.
    Win,
    /// The open windows.
    Open,
    /// A cookie.
    Cookie,
    /// A pending request.
    Ask,
    /// The last row.
    End,
}

/// All kinds of row.
const ROW_KINDS: [RowKind; 17] = [
    RowKind::Head,
    RowKind::Policy,
    RowKind::Class,
    RowKind::Mass,
    RowKind::Act,
    RowKind::Var,
    RowKind::Node,
    RowKind::On,
    RowKind::Kids,
    RowKind::Page,
    RowKind::Ready,
    RowKind::Wait,
    RowKind::Win,
    RowKind::Open,
    RowKind::Cookie,
    RowKind::Ask,
    RowKind::End,
];

/// Each kind of row has a word.
impl Worded for RowKind {
    ghost use Rattle.ff_saved_rows.specs.Words.{row_word, row_own};
    ghost use Rattle.ff_saved_rows.specs.declared.kinds.TheConstants.{ROW_KINDS};

    ghost word_of = { row_word };

    ghost each = { ROW_KINDS };

    ghost own = { row_own };

    fn all() -> &'static [RowKind] {
        &ROW_KINDS
    }

    fn word(self) -> &'static str {
        match self {
            RowKind::Head => "ffox-saved",
            RowKind::Policy => "policy",
            RowKind::Class => "class",
            RowKind::Mass => "mass",
            RowKind::Act => "act",
            RowKind::Var => "var",
            RowKind::Node => "node",
            RowKind::On => "on",
            RowKind::Kids => "kids",
            RowKind::Page => "page",
            RowKind::Ready => "ready",
            RowKind::Wait => "wait",
            RowKind::Win => "win",
            RowKind::Open => "open",
            RowKind::Cookie => "cookie",
            RowKind::Ask => "ask",
            RowKind::End => "end",
        }
    }
}

/// A kind of list within a row: a reference, a function, or what a reply is for.
#[derive(Clone, Copy, Debug, PartialEq, Eq)]
pub enum ListKind {
    /// `(win N)`: a window.
    Win,
    /// `(node N)`: a node.
    Node,
    /// `(code ACT (VAR*) EXPR)`: a function.
    Code,
    /// `(slot PAGE SLOT)`: the reply is a script for a slot of a page.
    Slot,
    /// `(call PAGE CODE)`: the reply is for a callback.
    Call,
}

/// All kinds of list.
const LIST_KINDS: [ListKind; 5] = [
    ListKind::Win,
    ListKind::Node,
    ListKind::Code,
    ListKind::Slot,
    ListKind::Call,
];

/// Each kind of list has a word.
impl Worded for ListKind {
    ghost use Rattle.ff_saved_rows.specs.Words.{list_word, list_own};
    ghost use Rattle.ff_saved_rows.specs.declared.kinds.TheConstants.{LIST_KINDS};

    ghost word_of = { list_word };

    ghost each = { LIST_KINDS };

    ghost own = { list_own };

    fn all() -> &'static [ListKind] {
        &LIST_KINDS
    }

    fn word(self) -> &'static str {
        match self {
            ListKind::Win => "win",
            ListKind::Node => "node",
            ListKind::Code => "code",
            ListKind::Slot => "slot",
            ListKind::Call => "call",
        }
    }
}
