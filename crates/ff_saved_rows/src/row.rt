//! One line of a saved text.

use ff_lattice::LevelSet;
use ff_machine::{Entry, Shape};
use ff_name::{Text, Url};
use ff_records::{AskRec, CookieRec, Variable, WinIds, WinRec};
use ff_value::{ActId, Code, Ids, NodeId, PageId, WinId};

/// One line of a saved text.
#[derive(Debug, Drop)]
pub enum Row {
    /// That it is a saved text, and of which version.
    Head,
    /// The policy, as it is printed.
    Policy(Text),
    /// The levels of a class. What follows up to the next class is saved of its browser.
    Class(LevelSet),
    /// The mass of the stores.
    Mass(u64),
    /// An activation, by the one around it. Its variables follow.
    Act(Option<ActId>),
    /// A variable of the activation before it.
    Var(Variable),
    /// A node. Its handlers follow, and then its children where its kind may have some.
    Node(Shape),
    /// A handler of the node before it.
    On(Code),
    /// The children of the node before them.
    Kids(Ids),
    /// A page: its address, window, root, activation, and the number of its next slot. Its queue
    /// follows.
    Page(Url, WinId, NodeId, ActId, u32),
    /// An entry of the queue of the page before it.
    Queued(Entry),
    /// A window, open or closed.
    Win(WinRec),
    /// The open windows in order of opening.
    Open(WinIds),
    /// A cookie.
    Cookie(CookieRec),
    /// A pending request.
    Ask(AskRec),
    /// The last line.
    End,
}
