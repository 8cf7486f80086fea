//! What is listed of a tree: its scripts that weren't started, and what the user is shown.
ghost use Rattle.std.specs.Prelude.{◌≡◌, ◌<◌, ◌++◌, IfOk, OnOk, length};
ghost use Rattle.ff_machine.specs.Nodes as nodes;
ghost use Rattle.ff_machine.specs.Shapes as shapes;

use crate::nodes::Nodes;
use ff_machine::{Kind, Shape};
use ff_value::{Ids, NoMemory, NodeId, Shown, ShownPart};

impl Nodes {
    /// The scripts and the addresses of scripts in the tree of a node that weren't started, in
    /// preorder.
    pub fn scripts(&self, root: NodeId) -> Result<Ids, NoMemory>
        requires { root.0 < length self.now }
        ensures { IfOk result (λ ids. ids ≡ nodes.scripts self.now root) }
    {
        let mut found = Vec::new(self.alloc);
        self.put_scripts(root, &mut found)?;
        Ids::from_vec(self.alloc, found)
    }

    fn put_scripts(&self, root: NodeId, found: &mut Vec<NodeId>) -> Result<(), NoMemory>
        requires { root.0 < length self.now }
        ensures { OnOk result (found.new.items ≡ found.old.items ++ nodes.scripts self.now root) }
    {
        if self.lacks_kind(root, Kind::Script) && self.lacks_kind(root, Kind::Src) {
            return Ok(());
        }
        let node = self.at(root);
        if node.is_unstarted() {
            found.push(root)?;
        }
        for child in node.children().as_slice() {
            self.put_scripts(*child, found)?;
        }
        Ok(())
    }

    /// What the user is shown of the children of a node.
    #[cycle(shown)]
    pub fn shown(&self, root: NodeId) -> Result<Shown, NoMemory>
        requires { root.0 < length self.now }
        ensures { IfOk result (λ shown. shown ≡ nodes.shown self.now root) }
    {
        let mut parts = Vec::new(self.alloc);
        for child in self.at(root).children().as_slice() {
            self.put_shown_part(*child, &mut parts)?;
        }
        Shown::from_vec(self.alloc, parts)
    }

    /// Puts what the user is shown of a node.
    #[cycle(shown)]
    fn put_shown_part(&self, n: NodeId, parts: &mut Vec<ShownPart>) -> Result<(), NoMemory>
        requires { n.0 < length self.now }
        ensures { OnOk result (parts.new.items
            ≡ parts.old.items ++ shapes.shown_as (nodes.node_at self.now n).shape
            (nodes.shown self.now n)) }
    {
        let part = match self.at(n).shape() {
            Shape::Text(_, text) => ShownPart::Text(text.copy()?),
            Shape::Link(_, url, label) => ShownPart::Link(url.copy()?, label.copy()?),
            Shape::TextBox(_, text) => ShownPart::TextBox(text.copy()?),
            Shape::Button(_, label) => ShownPart::Button(label.copy()?),
            Shape::Div(_) => ShownPart::Div(self.shown(n)?),
            Shape::Page(_) => return Ok(()),
            Shape::Script(_, _, _) => return Ok(()),
            Shape::Src(_, _, _) => return Ok(()),
        };
        parts.push(part)?;
        Ok(())
    }
}
