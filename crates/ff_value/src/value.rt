ghost use Rattle.std.specs.Prelude.{◌≡◌, ◌↔◌, IfOk, IsTrue};

use crate::ids::{ActId, NodeId, WinId};
use ff_name::{NoMemory, Text};
use ff_shared::SharedList;
use ff_tree::{Body, Names, same_names};
use std::cmp::{Eq, PartialEq};

/// A list of functions, as the handlers of a node.
pub type Codes = SharedList<Code>;

/// A function: its parameters, its body, and the activation in which it was made.
#[derive(Debug)]
pub struct Code {
    /// Its parameters: VARs, none twice.
    pub params: Names,
    /// What a call runs.
    pub body: Body,
    /// The activation that it was made in.
    pub env: ActId,
}

// Written out, so that the proof of a caller sees one call and not a part for each field.
impl Drop for Code {
    fn drop(self) {
        let Code {
            params: _params,
            body: _body,
            env: _,
        } = self;
    }
}

impl Code {
    /// An equal function that shares its body. Its one refusal is a count of owners that is full.
    pub fn copy(&self) -> Result<Code, NoMemory>
        ensures { IfOk result (λ code. code ≡ self.now) }
    {
        Ok(Code {
            params: self.params.copy()?,
            body: self.body.copy()?,
            env: self.env,
        })
    }
}

/// What an expression of a script becomes.
#[derive(Debug)]
pub enum Val {
    /// Nothing.
    Null,
    /// A truth value.
    Bool(bool),
    /// A number of 64 bits.
    Num(i64),
    /// A text.
    Str(Text),
    /// A window, open or closed.
    Win(WinId),
    /// A reference to a node.
    Node(NodeId),
    /// A function.
    Code(Code),
}

// Written out, so that the proof of a caller sees one call and not a case for each variant.
impl Drop for Val {
    fn drop(self) {
        match self {
            Val::Null => (),
            Val::Bool(_) => (),
            Val::Num(_) => (),
            Val::Str(_text) => (),
            Val::Win(_) => (),
            Val::Node(_) => (),
            Val::Code(_code) => (),
        }
    }
}

impl Val {
    /// An equal value. Its one refusal is a count of owners that is full.
    pub fn copy(&self) -> Result<Val, NoMemory>
        ensures { IfOk result (λ val. val ≡ self.now) }
    {
        match self {
            Val::Null => Ok(Val::Null),
            Val::Bool(b) => Ok(Val::Bool(*b)),
            Val::Num(n) => Ok(Val::Num(*n)),
            Val::Str(text) => Ok(Val::Str(text.copy()?)),
            Val::Win(win) => Ok(Val::Win(*win)),
            Val::Node(node) => Ok(Val::Node(*node)),
            Val::Code(code) => Ok(Val::Code(code.copy()?)),
        }
    }
}

impl PartialEq for Code {
    ghost use Rattle.ff_value.specs.contracts.value.Code.{the_row};
    ghost use Rattle.ff_shared.specs.Content.{same_content, same_content-per};

    ghost eq = { same_content the_row.coded };

    ghost laws = { same_content-per the_row.coded };

    fn eq(&self, other: &Code) -> bool
        ensures { IsTrue result ↔ (self.now ≡ other.now) }
    {
        same_names(&self.params, &other.params)
            && *self.body.get() == *other.body.get()
            && self.env == other.env
    }
}

impl Eq for Code {
    ghost use Rattle.ff_value.specs.contracts.value.Code.{the_row};
    ghost use Rattle.ff_shared.specs.Content.{same_content-equiv};

    ghost laws = { same_content-equiv the_row.coded };
}

impl PartialEq for Val {
    ghost use Rattle.ff_value.specs.contracts.value.Val.{the_row};
    ghost use Rattle.ff_shared.specs.Content.{same_content, same_content-per};

    ghost eq = { same_content the_row.coded };

    ghost laws = { same_content-per the_row.coded };

    fn eq(&self, other: &Val) -> bool
        ensures { IsTrue result ↔ (self.now ≡ other.now) }
    {
        match self {
            Val::Null => matches!(other, Val::Null),
            Val::Bool(b) => match other {
                Val::Bool(b2) => *b == *b2,
                _ => false,
            },
            Val::Num(n) => match other {
                Val::Num(n2) => *n == *n2,
                _ => false,
            },
            Val::Str(text) => match other {
                Val::Str(text2) => *text == *text2,
                _ => false,
            },
            Val::Win(win) => match other {
                Val::Win(win2) => *win == *win2,
                _ => false,
            },
            Val::Node(node) => match other {
                Val::Node(node2) => *node == *node2,
                _ => false,
            },
            Val::Code(code) => match other {
                Val::Code(code2) => *code == *code2,
                _ => false,
            },
        }
    }
}

impl Eq for Val {
    ghost use Rattle.ff_value.specs.contracts.value.Val.{the_row};
    ghost use Rattle.ff_shared.specs.Content.{same_content-equiv};

    ghost laws = { same_content-equiv the_row.coded };
}
