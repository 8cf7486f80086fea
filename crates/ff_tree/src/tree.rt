ghost use Rattle.std.specs.Prelude.{◌≡◌, IfOk};

use crate::op::Op;
use ff_name::{Name, NoMemory, Text, Url};
use ff_shared::{Shared, SharedList};

/// An expression that its owners share.
pub type Body = Shared<Expr>;

/// A list of expressions.
pub type Exprs = SharedList<Expr>;

/// A list of handlers.
pub type Handlers = SharedList<Handler>;

/// A list of names, as the parameters of a function.
pub type Names = SharedList<Name>;

/// A list of documents.
pub type Docs = SharedList<Doc>;

/// A literal.
#[derive(Debug, PartialEq, Eq)]
pub enum Lit {
    /// `null`.
    Null,
    /// `true` or `false`.
    Bool(bool),
    /// A number of 64 bits, in decimal.
    Num(i64),
    /// A text in quotation marks.
    Str(Text),
}

// Written out, so that the proof of a caller sees one call and not a case for each variant.
impl Drop for Lit {
    fn drop(self) {
        match self {
            Lit::Null => (),
            Lit::Bool(_) => (),
            Lit::Num(_) => (),
            Lit::Str(_text) => (),
        }
    }
}

impl Lit {
    /// An equal literal. Its one refusal is a count of owners that is full.
    pub fn copy(&self) -> Result<Lit, NoMemory>
        ensures { IfOk result (λ lit. lit ≡ self.now) }
    {
        match self {
            Lit::Null => Ok(Lit::Null),
            Lit::Bool(b) => Ok(Lit::Bool(*b)),
            Lit::Num(n) => Ok(Lit::Num(*n)),
            Lit::Str(text) => Ok(Lit::Str(text.copy()?)),
        }
    }
}

/// An expression of the script language.
#[cycle(ast)]
#[derive(Debug, Drop)]
pub enum Expr {
    /// A literal.
    Lit(Lit),
    /// The value of the nearest variable of that name.
    Var(Name),
    /// `let`: declares a variable in the innermost activation.
    Let(Name, Body),
    /// `set`: assigns the nearest variable of that name.
    Set(Name, Body),
    /// `if`: the test, then what stands for true and for false.
    If(Body, Body, Body),
    /// `while`: the test and what is repeated.
    While(Body, Body),
    /// `do`: the parts one after another.
    Do(Exprs),
    /// `and`: the second part only where the first is true.
    And(Body, Body),
    /// `or`: the second part only where the first is false.
    Or(Body, Body),
    /// `fn`: a function with its parameters and its body.
    Make(Names, Body),
    /// `call`: a function and its arguments.
    Apply(Body, Exprs),
    /// `new`: a node tree from a literal document.
    Tree(Doc),
    /// An operator and its operands.
    Prim(Op, Exprs),
}

impl Expr {
    /// An equal expression that shares its parts. Its one refusal is a count of owners that is
    /// full.
    pub fn copy(&self) -> Result<Expr, NoMemory>
        ensures { IfOk result (λ expr. expr ≡ self.now) }
    {
        match self {
            Expr::Lit(lit) => Ok(Expr::Lit(lit.copy()?)),
            Expr::Var(name) => Ok(Expr::Var(name.copy()?)),
            Expr::Let(name, body) => Ok(Expr::Let(name.copy()?, body.copy()?)),
            Expr::Set(name, body) => Ok(Expr::Set(name.copy()?, body.copy()?)),
            Expr::If(test, yes, no) => Ok(Expr::If(test.copy()?, yes.copy()?, no.copy()?)),
            Expr::While(test, body) => Ok(Expr::While(test.copy()?, body.copy()?)),
            Expr::Do(parts) => Ok(Expr::Do(parts.copy()?)),
            Expr::And(left, right) => Ok(Expr::And(left.copy()?, right.copy()?)),
            Expr::Or(left, right) => Ok(Expr::Or(left.copy()?, right.copy()?)),
            Expr::Make(params, body) => Ok(Expr::Make(params.copy()?, body.copy()?)),
            Expr::Apply(function, args) => Ok(Expr::Apply(function.copy()?, args.copy()?)),
            Expr::Tree(doc) => Ok(Expr::Tree(doc.copy()?)),
            Expr::Prim(op, args) => Ok(Expr::Prim(*op, args.copy()?)),
        }
    }
}

/// What a text box or a button does when the user types or clicks: a function of its node.
#[cycle(ast)]
#[derive(Debug, Drop)]
pub struct Handler {
    /// Its one parameter: a VAR.
    pub param: Name,
    /// What runs where the node is typed into or clicked.
    pub body: Body,
}

impl Handler {
    /// An equal handler that shares its body. Its one refusal is a count of owners that is full.
    pub fn copy(&self) -> Result<Handler, NoMemory>
        ensures { IfOk result (λ handler. handler ≡ self.now) }
    {
        Ok(Handler {
            param: self.param.copy()?,
            body: self.body.copy()?,
        })
    }
}

/// A document: what a page or a node tree is made from.
#[cycle(ast)]
#[derive(Debug, Drop)]
pub enum Doc {
    /// A text.
    Text(Name, Text),
    /// A link with its address and its label.
    Link(Name, Url, Text),
    /// A text box with its text and its handlers.
    TextBox(Name, Text, Handlers),
    /// A button with its label and its handlers.
    Button(Name, Text, Handlers),
    /// A script that stands in the document.
    Script(Name, Body),
    /// A script to be fetched from an address.
    Src(Name, Url),
    /// A division with its parts.
    Div(Name, Docs),
}

impl Doc {
    /// An equal document that shares its parts. Its one refusal is a count of owners that is full.
    pub fn copy(&self) -> Result<Doc, NoMemory>
        ensures { IfOk result (λ doc. doc ≡ self.now) }
    {
        match self {
            Doc::Text(name, text) => Ok(Doc::Text(name.copy()?, text.copy()?)),
            Doc::Link(name, url, label) => Ok(Doc::Link(name.copy()?, url.copy()?, label.copy()?)),
            Doc::TextBox(name, text, handlers) => {
                Ok(Doc::TextBox(name.copy()?, text.copy()?, handlers.copy()?))
            }
            Doc::Button(name, label, handlers) => {
                Ok(Doc::Button(name.copy()?, label.copy()?, handlers.copy()?))
            }
            Doc::Script(name, body) => Ok(Doc::Script(name.copy()?, body.copy()?)),
            Doc::Src(name, url) => Ok(Doc::Src(name.copy()?, url.copy()?)),
            Doc::Div(name, parts) => Ok(Doc::Div(name.copy()?, parts.copy()?)),
        }
    }
}
