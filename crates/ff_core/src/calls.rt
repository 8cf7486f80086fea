//! Tasks that call functions: handlers and callbacks.
ghost use Rattle.std.specs.Prelude.{◌≡◌, ◌<◌, ◌++◌, [], ◌∷◌, length, map, OnOk};
ghost use Rattle.ff_machine.specs.State as state;
ghost use Rattle.ff_machine.specs.Inputs as inputs;
ghost use Rattle.ff_core.specs.Calls.{call_task};

use crate::parts::Parts;
use ff_name::NoMemory;
use ff_step::Task;
use ff_value::{ActId, Code, NodeId, PageId, Val, WinId};
use std::alloc::Global;
use std::collections::VecDeque;

impl Parts {
    /// The handlers of a node of a window's page are to be called with the node.
    pub(crate) fn call_handlers(&mut self, window: WinId, n: NodeId) -> Result<(), NoMemory>
        requires window { window.0 < length self.old.stores.windows.windows }
        requires node { n.0 < length self.old.stores.nodes }
        ensures done { OnOk result (self.new ≡ inputs.call_handlers self.old window n) }
    {
        let page = self.stores.windows().page(window);
        let act = self.stores.windows().act_of(page);
        let codes = self.stores.nodes().handlers(n).as_slice();
        put_calls(self.alloc, page, act, codes, &Val::Node(n), &mut self.tasks)
    }

    /// A callback of a page is to be called with a value.
    pub(crate) fn call_back(&mut self, page: PageId, code: &Code, arg: &Val) -> Result<(), NoMemory>
        requires { page.0 < length self.old.stores.windows.pages }
        ensures done { OnOk result (self.new ≡ state.with_calls self.old page (code.now ∷ [])
            arg.now) }
    {
        let act = self.stores.windows().act_of(page);
        let task = Task::call(self.alloc, page, act, code, arg)?;
        self.tasks.push_back(task)?;
        Ok(())
    }
}

/// Functions of a page are to be called with a value in an activation, in order, after the tasks.
fn put_calls(
    alloc: Global,
    page: PageId,
    act: ActId,
    codes: &[Code],
    arg: &Val,
    tasks: &mut VecDeque<Task>,
) -> Result<(), NoMemory>
    ensures { OnOk result (tasks.new.items ≡ tasks.old.items
        ++ map (call_task page act arg.now) codes.now) }
{
    for code in codes {
        tasks.push_back(Task::call(alloc, page, act, code, arg)?)?;
    }
    Ok(())
}
