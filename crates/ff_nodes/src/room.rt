//! Whether there is room for the nodes that documents become.
ghost use Rattle.std.specs.Prelude.{◌≡◌, map};
ghost use Rattle.ff_value.specs.declared.ids.ActId.{ActId};
ghost use Rattle.ff_value.specs.declared.ids.PageId.{PageId};
ghost use Rattle.ff_machine.specs.Documents.{laid, laid_page, size_of};
ghost use Rattle.ff_nodes.specs.Room.{room_left};

use ff_value::Doc;

/// What is left of the room for so many nodes after those of a document, if there is room for them.
#[cycle(room)]
pub(crate) fn room_after(doc: &Doc, room: u32) -> Option<u32>
    ensures { (env : ActId) → result ≡ room_left room (laid env doc.now).size }
{
    let left = room.checked_sub(1)?;
    match doc {
        Doc::Text(_, _) => Some(left),
        Doc::Link(_, _, _) => Some(left),
        Doc::TextBox(_, _, _) => Some(left),
        Doc::Button(_, _, _) => Some(left),
        Doc::Script(_, _) => Some(left),
        Doc::Src(_, _) => Some(left),
        Doc::Div(_, docs) => room_after_all(docs.as_slice(), left),
    }
}

/// The same after those of some documents together.
#[cycle(room)]
pub(crate) fn room_after_all(docs: &[Doc], room: u32) -> Option<u32>
    ensures { (env : ActId) → result ≡ room_left room (size_of (map (laid env) docs.now)) }
{
    let mut left = room;
    for doc in docs {
        left = room_after(doc, left)?;
    }
    Some(left)
}

/// The same after those of a page with the documents.
pub(crate) fn room_after_page(docs: &[Doc], room: u32) -> Option<u32>
    ensures { (page : PageId) → (env : ActId)
        → result ≡ room_left room (laid_page page env docs.now).size }
{
    room_after_all(docs, room.checked_sub(1)?)
}
