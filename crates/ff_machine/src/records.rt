ghost use Rattle.std.specs.Prelude.{◌≡◌, IfOk};

use ff_name::{Name, NoMemory, Text, Url};
use ff_value::{Body, Code, PageId, WinId};

/// What a node is made of, by its kind.
#[derive(Debug)]
pub enum Shape {
    /// The root of a page.
    Page(PageId),
    /// A text: its name, and what it says.
    Text(Name, Text),
    /// A link: its name, its address and its label.
    Link(Name, Url, Text),
    /// A text box: its name and its text.
    TextBox(Name, Text),
    /// A button: its name and its label.
    Button(Name, Text),
    /// A script, and whether it was started.
    Script(Name, bool, Body),
    /// The address of a script, and whether it was started.
    Src(Name, bool, Url),
    /// A division: its name.
    Div(Name),
}

// Written out, so that the proof of a caller sees one call and not a case for each variant.
impl Drop for Shape {
    fn drop(self) {
        match self {
            Shape::Page(_) => (),
            Shape::Text(_name, _text) => (),
            Shape::Link(_name, _url, _text) => (),
            Shape::TextBox(_name, _text) => (),
            Shape::Button(_name, _text) => (),
            Shape::Script(_name, _, _body) => (),
            Shape::Src(_name, _, _url) => (),
            Shape::Div(_name) => (),
        }
    }
}

impl Shape {
    /// An equal shape, which shares its texts and its script. Its one refusal is a count of owners
    /// that is full.
    pub fn copy(&self) -> Result<Shape, NoMemory>
        ensures { IfOk result (λ shape. shape ≡ self.now) }
    {
        match self {
            Shape::Page(page) => Ok(Shape::Page(*page)),
            Shape::Text(name, text) => Ok(Shape::Text(name.copy()?, text.copy()?)),
            Shape::Link(name, url, label) => Ok(Shape::Link(
                name.copy()?,
                url.copy()?,
                label.copy()?,
            )),
            Shape::TextBox(name, text) => Ok(Shape::TextBox(name.copy()?, text.copy()?)),
            Shape::Button(name, label) => Ok(Shape::Button(name.copy()?, label.copy()?)),
            Shape::Script(name, started, body) => Ok(Shape::Script(
                name.copy()?,
                *started,
                body.copy()?,
            )),
            Shape::Src(name, started, url) => Ok(Shape::Src(name.copy()?, *started, url.copy()?)),
            Shape::Div(name) => Ok(Shape::Div(name.copy()?)),
        }
    }
}

/// One place in the queue of a page's scripts.
#[derive(Debug)]
pub enum Entry {
    /// A script that may run.
    Ready(Body),
    /// A slot, by its number, whose script hasn't come.
    Wait(u32),
}

// Written out, so that the proof of a caller sees one call and not a case for each variant.
impl Drop for Entry {
    fn drop(self) {
        match self {
            Entry::Ready(_body) => (),
            Entry::Wait(_) => (),
        }
    }
}

impl Entry {
    /// An equal entry, which shares its script. Its one refusal is a count of owners that is full.
    pub fn copy(&self) -> Result<Entry, NoMemory>
        ensures { IfOk result (λ entry. entry ≡ self.now) }
    {
        match self {
            Entry::Ready(body) => Ok(Entry::Ready(body.copy()?)),
            Entry::Wait(slot) => Ok(Entry::Wait(*slot)),
        }
    }
}

/// What a reply is for.
#[derive(Debug)]
pub enum Dst {
    /// A window, which loads it.
    Window(WinId),
    /// A slot of a page's queue, by its number, which it fills.
    Slot(PageId, u32),
    /// A function of a page's script, which is called with it.
    Call(PageId, Code),
}

// Written out, so that the proof of a caller sees one call and not a case for each variant.
impl Drop for Dst {
    fn drop(self) {
        match self {
            Dst::Window(_) => (),
            Dst::Slot(_, _) => (),
            Dst::Call(_, _code) => (),
        }
    }
}

impl Dst {
    /// An equal destination, which shares its function. Its one refusal is a count of owners that
    /// is full.
    pub fn copy(&self) -> Result<Dst, NoMemory>
        ensures { IfOk result (λ dst. dst ≡ self.now) }
    {
        match self {
            Dst::Window(window) => Ok(Dst::Window(*window)),
            Dst::Slot(page, slot) => Ok(Dst::Slot(*page, *slot)),
            Dst::Call(page, code) => Ok(Dst::Call(*page, code.copy()?)),
        }
    }
}

/// A request whose reply hasn't come: its request text, and what the reply is for.
#[derive(Debug, Drop)]
pub struct Pending {
    /// The request text: what stands behind the domain.
    pub uri: Text,
    /// What the reply is for.
    pub dst: Dst,
}

impl Pending {
    /// An equal request, which shares its text and its function. Its one refusal is a count of
    /// owners that is full.
    pub fn copy(&self) -> Result<Pending, NoMemory>
        ensures { IfOk result (λ pending. pending ≡ self.now) }
    {
        Ok(Pending {
            uri: self.uri.copy()?,
            dst: self.dst.copy()?,
        })
    }
}
