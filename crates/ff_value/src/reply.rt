ghost use Rattle.std.specs.Prelude.{◌≡◌, ◌↔◌, IfOk, IsTrue};

use ff_name::{NoMemory, Text};
use ff_shared::SharedList;
use ff_tree::{Body, Docs, same_docs};
use std::cmp::{Eq, PartialEq};

/// What a response does to one cookie of its domain.
#[derive(Debug)]
pub enum CookieOp {
    /// Sets a key to a value.
    Put(Text, Text),
    /// Takes a key away.
    Drop(Text),
}

// Written out, so that the proof of a caller sees one call and not a case for each variant.
impl Drop for CookieOp {
    fn drop(self) {
        match self {
            CookieOp::Put(_key, _value) => (),
            CookieOp::Drop(_key) => (),
        }
    }
}

/// The cookie entries of a response, in their order.
pub type Cookies = SharedList<CookieOp>;

impl CookieOp {
    /// An equal entry. Its one refusal is a count of owners that is full.
    pub fn copy(&self) -> Result<CookieOp, NoMemory>
        ensures { IfOk result (λ entry. entry ≡ self.now) }
    {
        match self {
            CookieOp::Put(key, value) => Ok(CookieOp::Put(key.copy()?, value.copy()?)),
            CookieOp::Drop(key) => Ok(CookieOp::Drop(key.copy()?)),
        }
    }
}

/// What a server answers: its cookie entries and a page, a script or a text.
#[derive(Debug)]
pub enum Resp {
    /// A page of these documents, after these cookies.
    Page(Cookies, Docs),
    /// A script.
    Script(Cookies, Body),
    /// Bytes for a callback: a text.
    Data(Cookies, Text),
}

// Written out, so that the proof of a caller sees one call and not a case for each variant.
impl Drop for Resp {
    fn drop(self) {
        match self {
            Resp::Page(_cookies, _docs) => (),
            Resp::Script(_cookies, _body) => (),
            Resp::Data(_cookies, _text) => (),
        }
    }
}

impl Resp {
    /// An equal response that shares its content. Its one refusal is a count of owners that is
    /// full.
    pub fn copy(&self) -> Result<Resp, NoMemory>
        ensures { IfOk result (λ resp. resp ≡ self.now) }
    {
        match self {
            Resp::Page(cookies, docs) => Ok(Resp::Page(cookies.copy()?, docs.copy()?)),
            Resp::Script(cookies, body) => Ok(Resp::Script(cookies.copy()?, body.copy()?)),
            Resp::Data(cookies, text) => Ok(Resp::Data(cookies.copy()?, text.copy()?)),
        }
    }
}

impl PartialEq for CookieOp {
    ghost use Rattle.ff_value.specs.contracts.reply.CookieOp.{the_row};
    ghost use Rattle.ff_shared.specs.Content.{same_content, same_content-per};

    ghost eq = { same_content the_row.coded };

    ghost laws = { same_content-per the_row.coded };

    fn eq(&self, other: &CookieOp) -> bool
        ensures { IsTrue result ↔ (self.now ≡ other.now) }
    {
        match self {
            CookieOp::Put(key, value) => match other {
                CookieOp::Put(key2, value2) => *key == *key2 && *value == *value2,
                _ => false,
            },
            CookieOp::Drop(key) => match other {
                CookieOp::Drop(key2) => *key == *key2,
                _ => false,
            },
        }
    }
}

impl Eq for CookieOp {
    ghost use Rattle.ff_value.specs.contracts.reply.CookieOp.{the_row};
    ghost use Rattle.ff_shared.specs.Content.{same_content-equiv};

    ghost laws = { same_content-equiv the_row.coded };
}

impl PartialEq for Resp {
    ghost use Rattle.ff_value.specs.contracts.reply.Resp.{the_row};
    ghost use Rattle.ff_shared.specs.Content.{same_content, same_content-per};

    ghost eq = { same_content the_row.coded };

    ghost laws = { same_content-per the_row.coded };

    fn eq(&self, other: &Resp) -> bool
        ensures { IsTrue result ↔ (self.now ≡ other.now) }
    {
        match self {
            Resp::Page(cookies, docs) => match other {
                Resp::Page(cookies2, docs2) => same_cookies(cookies, cookies2)
                    && same_docs(docs.as_slice(), docs2.as_slice()),
                _ => false,
            },
            Resp::Script(cookies, body) => match other {
                Resp::Script(cookies2, body2) => same_cookies(cookies, cookies2)
                    && *body.get() == *body2.get(),
                _ => false,
            },
            Resp::Data(cookies, text) => match other {
                Resp::Data(cookies2, text2) => same_cookies(cookies, cookies2) && *text == *text2,
                _ => false,
            },
        }
    }
}

impl Eq for Resp {
    ghost use Rattle.ff_value.specs.contracts.reply.Resp.{the_row};
    ghost use Rattle.ff_shared.specs.Content.{same_content-equiv};

    ghost laws = { same_content-equiv the_row.coded };
}

fn same_cookies(xs: &Cookies, ys: &Cookies) -> bool
    ensures { IsTrue result ↔ (xs.now ≡ ys.now) }
{
    *xs == *ys
}
