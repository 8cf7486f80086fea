ghost use Rattle.std.specs.Prelude.{◌≡◌, ◌↔◌, IfOk, IsTrue};

use crate::fault::Fault;
use ff_name::{Domain, NoMemory, Text, Url};
use ff_shared::SharedList;
use std::cmp::{Eq, PartialEq};

/// What the user is shown of a node.
#[derive(Debug, Drop)]
pub enum ShownPart {
    /// A text.
    Text(Text),
    /// A link with its address and its label.
    Link(Url, Text),
    /// A text box, with its text.
    TextBox(Text),
    /// A button, with its label.
    Button(Text),
    /// A division with what is shown of its parts.
    Div(Shown),
}

/// What the user is shown of a page.
pub type Shown = SharedList<ShownPart>;

impl ShownPart {
    /// An equal view that shares its parts. Its one refusal is a count of owners that is full.
    pub fn copy(&self) -> Result<ShownPart, NoMemory>
        ensures { IfOk result (λ part. part ≡ self.now) }
    {
        match self {
            ShownPart::Text(text) => Ok(ShownPart::Text(text.copy()?)),
            ShownPart::Link(url, label) => Ok(ShownPart::Link(url.copy()?, label.copy()?)),
            ShownPart::TextBox(text) => Ok(ShownPart::TextBox(text.copy()?)),
            ShownPart::Button(label) => Ok(ShownPart::Button(label.copy()?)),
            ShownPart::Div(parts) => Ok(ShownPart::Div(parts.copy()?)),
        }
    }
}

/// A key and its value, as of a cookie.
#[derive(Debug, Drop)]
pub struct Pair {
    /// A cookie's key.
    pub key: Text,
    /// Its value.
    pub value: Text,
}

/// A list of keys and values.
pub type Pairs = SharedList<Pair>;

impl Pair {
    /// An equal pair. Its one refusal is a count of owners that is full.
    pub fn copy(&self) -> Result<Pair, NoMemory>
        ensures { IfOk result (λ pair. pair ≡ self.now) }
    {
        Ok(Pair {
            key: self.key.copy()?,
            value: self.value.copy()?,
        })
    }
}

/// What a browser puts out. A window's number is its position among the open windows, from 0.
#[derive(Debug)]
pub enum Out {
    /// A window was opened.
    Opened,
    /// A window was closed.
    Closed(u32),
    /// A window shows a new page.
    Loaded(u32, Url, Shown),
    /// A window's page was changed.
    Updated(u32, Shown),
    /// A script of a window's page failed.
    Error(u32, Fault),
    /// The input's fuel was spent.
    Stopped,
    /// A request to a domain: the request text, its cookies in byte order of keys, and its body.
    Send(Domain, Text, Pairs, Text),
}

// Written out, so that the proof of a caller sees one call and not a case for each variant.
impl Drop for Out {
    fn drop(self) {
        match self {
            Out::Opened => (),
            Out::Closed(_) => (),
            Out::Loaded(_, _url, _shown) => (),
            Out::Updated(_, _shown) => (),
            Out::Error(_, _) => (),
            Out::Stopped => (),
            Out::Send(_domain, _request, _pairs, _body) => (),
        }
    }
}

impl Out {
    /// An equal output that shares its content. Its one refusal is a count of owners that is full.
    pub fn copy(&self) -> Result<Out, NoMemory>
        ensures { IfOk result (λ out. out ≡ self.now) }
    {
        match self {
            Out::Opened => Ok(Out::Opened),
            Out::Closed(win) => Ok(Out::Closed(*win)),
            Out::Loaded(win, url, shown) => Ok(Out::Loaded(*win, url.copy()?, shown.copy()?)),
            Out::Updated(win, shown) => Ok(Out::Updated(*win, shown.copy()?)),
            Out::Error(win, fault) => Ok(Out::Error(*win, *fault)),
            Out::Stopped => Ok(Out::Stopped),
            Out::Send(domain, request, cookies, body) => Ok(Out::Send(
                domain.copy()?,
                request.copy()?,
                cookies.copy()?,
                body.copy()?,
            )),
        }
    }
}

impl PartialEq for Pair {
    ghost use Rattle.ff_value.specs.contracts.output.Pair.{the_row};
    ghost use Rattle.ff_shared.specs.Content.{same_content, same_content-per};

    ghost eq = { same_content the_row.coded };

    ghost laws = { same_content-per the_row.coded };

    fn eq(&self, other: &Pair) -> bool
        ensures { IsTrue result ↔ (self.now ≡ other.now) }
    {
        self.key == other.key && self.value == other.value
    }
}

impl Eq for Pair {
    ghost use Rattle.ff_value.specs.contracts.output.Pair.{the_row};
    ghost use Rattle.ff_shared.specs.Content.{same_content-equiv};

    ghost laws = { same_content-equiv the_row.coded };
}

impl PartialEq for ShownPart {
    ghost use Rattle.ff_value.specs.contracts.output.ShownPart.{the_row};
    ghost use Rattle.ff_shared.specs.Content.{same_content, same_content-per};

    ghost eq = { same_content the_row.coded };

    ghost laws = { same_content-per the_row.coded };

    fn eq(&self, other: &ShownPart) -> bool
        ensures { IsTrue result ↔ (self.now ≡ other.now) }
    {
        same_shown_part(self, other)
    }
}

impl Eq for ShownPart {
    ghost use Rattle.ff_value.specs.contracts.output.ShownPart.{the_row};
    ghost use Rattle.ff_shared.specs.Content.{same_content-equiv};

    ghost laws = { same_content-equiv the_row.coded };
}

impl PartialEq for Out {
    ghost use Rattle.ff_value.specs.contracts.output.Out.{the_row};
    ghost use Rattle.ff_shared.specs.Content.{same_content, same_content-per};

    ghost eq = { same_content the_row.coded };

    ghost laws = { same_content-per the_row.coded };

    fn eq(&self, other: &Out) -> bool
        ensures { IsTrue result ↔ (self.now ≡ other.now) }
    {
        match self {
            Out::Opened => matches!(other, Out::Opened),
            Out::Closed(win) => match other {
                Out::Closed(win2) => *win == *win2,
                _ => false,
            },
            Out::Loaded(win, url, shown) => match other {
                Out::Loaded(win2, url2, shown2) => *win == *win2
                    && *url == *url2
                    && same_shown(shown.as_slice(), shown2.as_slice()),
                _ => false,
            },
            Out::Updated(win, shown) => match other {
                Out::Updated(win2, shown2) => *win == *win2
                    && same_shown(shown.as_slice(), shown2.as_slice()),
                _ => false,
            },
            Out::Error(win, fault) => match other {
                Out::Error(win2, fault2) => *win == *win2 && *fault == *fault2,
                _ => false,
            },
            Out::Stopped => matches!(other, Out::Stopped),
            Out::Send(domain, request, cookies, body) => match other {
                Out::Send(domain2, request2, cookies2, body2) => *domain == *domain2
                    && *request == *request2
                    && same_pairs(cookies, cookies2)
                    && *body == *body2,
                _ => false,
            },
        }
    }
}

impl Eq for Out {
    ghost use Rattle.ff_value.specs.contracts.output.Out.{the_row};
    ghost use Rattle.ff_shared.specs.Content.{same_content-equiv};

    ghost laws = { same_content-equiv the_row.coded };
}

/// Whether two views are equal.
#[cycle(same)]
fn same_shown_part(a: &ShownPart, b: &ShownPart) -> bool
    ensures { IsTrue result ↔ (a.now ≡ b.now) }
{
    match a {
        ShownPart::Text(text) => match b {
            ShownPart::Text(text2) => *text == *text2,
            _ => false,
        },
        ShownPart::Link(url, label) => match b {
            ShownPart::Link(url2, label2) => *url == *url2 && *label == *label2,
            _ => false,
        },
        ShownPart::TextBox(text) => match b {
            ShownPart::TextBox(text2) => *text == *text2,
            _ => false,
        },
        ShownPart::Button(label) => match b {
            ShownPart::Button(label2) => *label == *label2,
            _ => false,
        },
        ShownPart::Div(parts) => match b {
            ShownPart::Div(parts2) => same_shown(parts.as_slice(), parts2.as_slice()),
            _ => false,
        },
    }
}

#[cycle(same)]
fn same_shown(xs: &[ShownPart], ys: &[ShownPart]) -> bool
    ensures { IsTrue result ↔ (xs.now ≡ ys.now) }
{
    if xs.len() != ys.len() {
        return false;
    }
    for i in 0..xs.len() {
        if !same_shown_part(&xs[i], &ys[i]) {
            return false;
        }
    }
    true
}

fn same_pairs(xs: &Pairs, ys: &Pairs) -> bool
    ensures { IsTrue result ↔ (xs.now ≡ ys.now) }
{
    *xs == *ys
}
