//! The words that head lists: one home for each.

use ff_name::Worded;
use ff_tree::Op;

/// The words that head a document.
#[derive(Clone, Copy, Debug, PartialEq, Eq)]
pub enum DocHead {
    /// `(text NAME STR)`.
    Text,
    /// `(link NAME URL STR)`.
    Link,
    /// `(box NAME STR HANDLER*)`.
    TextBox,
    /// `(button NAME STR HANDLER*)`.
    Button,
    /// `(script NAME EXPR)`.
    Script,
    /// `(src NAME URL)`.
    Src,
    /// `(div NAME DOC*)`.
    Div,
}

const DOC_HEADS: [DocHead; 7] = [
    DocHead::Text,
    DocHead::Link,
    DocHead::TextBox,
    DocHead::Button,
    DocHead::Script,
    DocHead::Src,
    DocHead::Div,
];

impl Worded for DocHead {
    ghost use Rattle.ff_forms.specs.Heads.{doc_word, doc_own};
    ghost use Rattle.ff_forms.specs.declared.heads.TheConstants.{DOC_HEADS};

    ghost word_of = { doc_word };

    ghost each = { DOC_HEADS };

    ghost own = { doc_own };

    fn all() -> &'static [DocHead] {
        &DOC_HEADS
    }

    fn word(self) -> &'static str {
        match self {
            DocHead::Text => "text",
            DocHead::Link => "link",
            DocHead::TextBox => "box",
            DocHead::Button => "button",
            DocHead::Script => "script",
            DocHead::Src => "src",
            DocHead::Div => "div",
        }
    }
}

/// The words that head an expression: those of the language's own forms, and those of the
/// operators.
#[derive(Clone, Copy, Debug, PartialEq, Eq)]
pub enum ExprHead {
    /// `(let VAR EXPR)`.
    Let,
    /// `(set VAR EXPR)`.
    Set,
    /// `(if EXPR EXPR EXPR)`.
    If,
    /// `(while EXPR EXPR)`.
    While,
    /// `(do EXPR*)`.
    Do,
    /// `(and EXPR EXPR)`.
    And,
    /// `(or EXPR EXPR)`.
    Or,
    /// `(fn (VAR*) EXPR)`.
    Make,
    /// `(call EXPR EXPR*)`.
    Apply,
    /// `(new DOC)`.
    Tree,
    /// An operator's word, and its operands.
    Prim(Op),
}

const EXPR_HEADS: [ExprHead; 48] = [
    ExprHead::Let,
    ExprHead::Set,
    ExprHead::If,
    ExprHead::While,
    ExprHead::Do,
    ExprHead::And,
    ExprHead::Or,
    ExprHead::Make,
    ExprHead::Apply,
    ExprHead::Tree,
    ExprHead::Prim(Op::Add),
    ExprHead::Prim(Op::Sub),
    ExprHead::Prim(Op::Mul),
    ExprHead::Prim(Op::Div),
    ExprHead::Prim(Op::Rem),
    ExprHead::Prim(Op::Less),
    ExprHead::Prim(Op::AtMost),
    ExprHead::Prim(Op::Equal),
    ExprHead::Prim(Op::Not),
    ExprHead::Prim(Op::Cat),
    ExprHead::Prim(Op::Len),
    ExprHead::Prim(Op::Byte),
    ExprHead::Prim(Op::Cut),
    ExprHead::Prim(Op::Str),
    ExprHead::Prim(Op::Num),
    ExprHead::Prim(Op::Cookie),
    ExprHead::Prim(Op::SetCookie),
    ExprHead::Prim(Op::DelCookie),
    ExprHead::Prim(Op::SelfWindow),
    ExprHead::Prim(Op::Opener),
    ExprHead::Prim(Op::Live),
    ExprHead::Prim(Op::Url),
    ExprHead::Prim(Op::Page),
    ExprHead::Prim(Op::Window),
    ExprHead::Prim(Op::Open),
    ExprHead::Prim(Op::OpenNamed),
    ExprHead::Prim(Op::Go),
    ExprHead::Prim(Op::Close),
    ExprHead::Prim(Op::Kind),
    ExprHead::Prim(Op::Text),
    ExprHead::Prim(Op::SetText),
    ExprHead::Prim(Op::Count),
    ExprHead::Prim(Op::Child),
    ExprHead::Prim(Op::Find),
    ExprHead::Prim(Op::Nth),
    ExprHead::Prim(Op::Insert),
    ExprHead::Prim(Op::Listen),
    ExprHead::Prim(Op::Ask),
];

impl Worded for ExprHead {
    ghost use Rattle.ff_forms.specs.Heads.{expr_word, expr_own};
    ghost use Rattle.ff_forms.specs.declared.heads.TheConstants.{EXPR_HEADS};

    ghost word_of = { expr_word };

    ghost each = { EXPR_HEADS };

    ghost own = { expr_own };

    fn all() -> &'static [ExprHead] {
        &EXPR_HEADS
    }

    fn word(self) -> &'static str {
        match self {
            ExprHead::Let => "let",
            ExprHead::Set => "set",
            ExprHead::If => "if",
            ExprHead::While => "while",
            ExprHead::Do => "do",
            ExprHead::And => "and",
            ExprHead::Or => "or",
            ExprHead::Make => "fn",
            ExprHead::Apply => "call",
            ExprHead::Tree => "new",
            ExprHead::Prim(op) => op.word(),
        }
    }
}

/// The word that heads a handler.
#[derive(Clone, Copy, Debug, PartialEq, Eq)]
pub enum HandlerHead {
    /// `(fn (VAR) EXPR)`.
    Make,
}

const HANDLER_HEADS: [HandlerHead; 1] = [HandlerHead::Make];

impl Worded for HandlerHead {
    ghost use Rattle.ff_forms.specs.Heads.{handler_word, handler_own};
    ghost use Rattle.ff_forms.specs.declared.heads.TheConstants.{HANDLER_HEADS};

    ghost word_of = { handler_word };

    ghost each = { HANDLER_HEADS };

    ghost own = { handler_own };

    fn all() -> &'static [HandlerHead] {
        &HANDLER_HEADS
    }

    fn word(self) -> &'static str {
        match self {
            HandlerHead::Make => "fn",
        }
    }
}

/// The words that head a response.
#[derive(Clone, Copy, Debug, PartialEq, Eq)]
pub enum RespHead {
    /// `(doc COOKIES DOC*)`.
    Page,
    /// `(script COOKIES EXPR)`.
    Script,
    /// `(data COOKIES STR)`.
    Data,
}

const RESP_HEADS: [RespHead; 3] = [RespHead::Page, RespHead::Script, RespHead::Data];

impl Worded for RespHead {
    ghost use Rattle.ff_forms.specs.Heads.{resp_word, resp_own};
    ghost use Rattle.ff_forms.specs.declared.heads.TheConstants.{RESP_HEADS};

    ghost word_of = { resp_word };

    ghost each = { RESP_HEADS };

    ghost own = { resp_own };

    fn all() -> &'static [RespHead] {
        &RESP_HEADS
    }

    fn word(self) -> &'static str {
        match self {
            RespHead::Page => "doc",
            RespHead::Script => "script",
            RespHead::Data => "data",
        }
    }
}

/// The words that head a cookie entry.
#[derive(Clone, Copy, Debug, PartialEq, Eq)]
pub enum CookieHead {
    /// `(put STR STR)`.
    Put,
    /// `(drop STR)`.
    Drop,
}

const COOKIE_HEADS: [CookieHead; 2] = [CookieHead::Put, CookieHead::Drop];

impl Worded for CookieHead {
    ghost use Rattle.ff_forms.specs.Heads.{cookie_word, cookie_own};
    ghost use Rattle.ff_forms.specs.declared.heads.TheConstants.{COOKIE_HEADS};

    ghost word_of = { cookie_word };

    ghost each = { COOKIE_HEADS };

    ghost own = { cookie_own };

    fn all() -> &'static [CookieHead] {
        &COOKIE_HEADS
    }

    fn word(self) -> &'static str {
        match self {
            CookieHead::Put => "set",
            CookieHead::Drop => "del",
        }
    }
}
