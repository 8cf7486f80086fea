ghost use Rattle.std.specs.Prelude.{◌≡◌, ◌↔◌, IfOk, IsTrue};

use crate::kind::Kind;
use crate::reply::Resp;
use ff_name::{Domain, Level, NoMemory, Text, Url};
use std::cmp::{Eq, PartialEq};

/// What the user does or a server answers. A window's number is its position among the open
/// windows, from 0.
#[derive(Debug)]
pub enum Act {
    /// Opens a window at an address.
    Opens(Url),
    /// Sends a window to an address.
    Goes(u32, Url),
    /// Follows a window's link with that number in its page, from 0.
    Links(u32, u32),
    /// Closes a window.
    Closes(u32),
    /// Types a text into a window's text box with that number in its page, from 0.
    Types(u32, u32, Text),
    /// Clicks a window's button with that number in its page, from 0.
    Clicks(u32, u32),
    /// Answers a domain's pending request with that number, from 0.
    Replies(Domain, u32, Resp),
}

// Written out, so that the proof of a caller sees one call and not a case for each variant.
impl Drop for Act {
    fn drop(self) {
        match self {
            Act::Opens(_url) => (),
            Act::Goes(_, _url) => (),
            Act::Links(_, _) => (),
            Act::Closes(_) => (),
            Act::Types(_, _, _text) => (),
            Act::Clicks(_, _) => (),
            Act::Replies(_domain, _, _resp) => (),
        }
    }
}

impl Act {
    ghost use Rattle.ff_value.specs.Kinds.{kind_of};

    /// What the act does.
    pub fn kind(&self) -> Kind
        ensures { result ≡ kind_of self.now }
    {
        match self {
            Act::Opens(_) => Kind::Open,
            Act::Goes(_, _) => Kind::Go,
            Act::Links(_, _) => Kind::Link,
            Act::Closes(_) => Kind::Close,
            Act::Types(_, _, _) => Kind::Type,
            Act::Clicks(_, _) => Kind::Click,
            Act::Replies(_, _, _) => Kind::Reply,
        }
    }

    /// An equal act that shares its content. Its one refusal is a count of owners that is full.
    pub fn copy(&self) -> Result<Act, NoMemory>
        ensures { IfOk result (λ act. act ≡ self.now) }
    {
        match self {
            Act::Opens(url) => Ok(Act::Opens(url.copy()?)),
            Act::Goes(win, url) => Ok(Act::Goes(*win, url.copy()?)),
            Act::Links(win, link) => Ok(Act::Links(*win, *link)),
            Act::Closes(win) => Ok(Act::Closes(*win)),
            Act::Types(win, field, text) => Ok(Act::Types(*win, *field, text.copy()?)),
            Act::Clicks(win, button) => Ok(Act::Clicks(*win, *button)),
            Act::Replies(domain, request, resp) => {
                Ok(Act::Replies(domain.copy()?, *request, resp.copy()?))
            }
        }
    }
}

/// One input: an act, and the level that it was tagged with, if any.
#[derive(Debug, Drop)]
pub struct Input {
    /// The level that `@LEVEL` names, with which its levels are joined.
    pub tag: Option<Level>,
    /// What happens.
    pub act: Act,
}

impl Input {
    /// An equal input that shares its content. Its one refusal is a count of owners that is full.
    pub fn copy(&self) -> Result<Input, NoMemory>
        ensures { IfOk result (λ input. input ≡ self.now) }
    {
        Ok(Input {
            tag: self.tag,
            act: self.act.copy()?,
        })
    }
}

impl PartialEq for Act {
    ghost use Rattle.ff_value.specs.contracts.input.Act.{the_row};
    ghost use Rattle.ff_shared.specs.Content.{same_content, same_content-per};

    ghost eq = { same_content the_row.coded };

    ghost laws = { same_content-per the_row.coded };

    fn eq(&self, other: &Act) -> bool
        ensures { IsTrue result ↔ (self.now ≡ other.now) }
    {
        match self {
            Act::Opens(url) => match other {
                Act::Opens(url2) => *url == *url2,
                _ => false,
            },
            Act::Goes(win, url) => match other {
                Act::Goes(win2, url2) => *win == *win2 && *url == *url2,
                _ => false,
            },
            Act::Links(win, link) => match other {
                Act::Links(win2, link2) => *win == *win2 && *link == *link2,
                _ => false,
            },
            Act::Closes(win) => match other {
                Act::Closes(win2) => *win == *win2,
                _ => false,
            },
            Act::Types(win, field, text) => match other {
                Act::Types(win2, field2, text2) => *win == *win2
                    && *field == *field2
                    && *text == *text2,
                _ => false,
            },
            Act::Clicks(win, button) => match other {
                Act::Clicks(win2, button2) => *win == *win2 && *button == *button2,
                _ => false,
            },
            Act::Replies(domain, request, resp) => match other {
                Act::Replies(domain2, request2, resp2) => *domain == *domain2
                    && *request == *request2
                    && *resp == *resp2,
                _ => false,
            },
        }
    }
}

impl Eq for Act {
    ghost use Rattle.ff_value.specs.contracts.input.Act.{the_row};
    ghost use Rattle.ff_shared.specs.Content.{same_content-equiv};

    ghost laws = { same_content-equiv the_row.coded };
}

impl PartialEq for Input {
    ghost use Rattle.ff_value.specs.contracts.input.Input.{the_row};
    ghost use Rattle.ff_shared.specs.Content.{same_content, same_content-per};

    ghost eq = { same_content the_row.coded };

    ghost laws = { same_content-per the_row.coded };

    fn eq(&self, other: &Input) -> bool
        ensures { IsTrue result ↔ (self.now ≡ other.now) }
    {
        self.tag == other.tag && self.act == other.act
    }
}

impl Eq for Input {
    ghost use Rattle.ff_value.specs.contracts.input.Input.{the_row};
    ghost use Rattle.ff_shared.specs.Content.{same_content-equiv};

    ghost laws = { same_content-equiv the_row.coded };
}
