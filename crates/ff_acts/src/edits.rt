//! Changes of a variable, each made where its cell lies.
ghost use Rattle.std.specs.Prelude.{Some};

use crate::cells::VarCell;
use ff_cow::Edit;
use ff_value::Val;

/// Another value.
#[derive(Drop)]
pub(crate) struct NewValue {
    pub(crate) value: Val,
}

impl Edit<VarCell> for NewValue {
    ghost edited = { λ change cell. record cell { value = change.value } };

    fn edit(self, cell: &mut VarCell) {
        cell.value = self.value;
    }
}

/// A link to the left, to the variable at a place.
#[derive(Drop)]
pub(crate) struct LeftLink {
    pub(crate) to: u32,
}

impl Edit<VarCell> for LeftLink {
    ghost edited = { λ link cell. record cell { left = Some link.to } };

    fn edit(self, cell: &mut VarCell) {
        cell.left = Some(self.to);
    }
}

/// A link to the right, to the variable at a place.
#[derive(Drop)]
pub(crate) struct RightLink {
    pub(crate) to: u32,
}

impl Edit<VarCell> for RightLink {
    ghost edited = { λ link cell. record cell { right = Some link.to } };

    fn edit(self, cell: &mut VarCell) {
        cell.right = Some(self.to);
    }
}
