//! Tasks.
ghost use Rattle.std.specs.Prelude.{◌≡◌, IfOk};
ghost use Rattle.ff_term.specs.Running.{call_of};
ghost use Rattle.ff_term.specs.Whole.{whole};

use ff_frames::Control;
use ff_name::NoMemory;
use ff_tree::Body;
use ff_value::{ActId, Code, PageId, Val};
use std::alloc::Global;
use std::marker::Model;

/// An expression that runs for a page.
pub struct Task {
    pub(crate) page: PageId,
    pub(crate) control: Control,
}

// Written out, so that the proof of a caller sees one call and not a part for each field.
impl Drop for Task {
    fn drop(self) {
        let Task {
            page: _,
            control: _control,
        } = self;
    }
}

impl Model for Task {
    ghost use Rattle.ff_machine.specs.Codes.{coded_task};
    ghost use Rattle.ff_machine.specs.State as state;

    ghost Value = { state.Task };

    ghost coded = { coded_task };

    ghost view = { λ t. record { page = t.page; running = t.control } };
}

impl Task {
    /// A script of a page, which runs in an activation.
    pub fn script(alloc: Global, page: PageId, act: ActId, body: &Body) -> Result<Task, NoMemory>
        ensures { IfOk result (λ task. task ≡ record
            { page = page; running = record { base = act; expr = whole body.now } }) }
    {
        let mut control = Control::new(alloc);
        control.start(alloc, body, act)?;
        Ok(Task { page, control })
    }

    /// The call of a function of a page with one argument, which runs in an activation.
    pub fn call(
        alloc: Global,
        page: PageId,
        act: ActId,
        code: &Code,
        arg: &Val,
    ) -> Result<Task, NoMemory>
        ensures { IfOk result (λ task. task ≡ record
            { page = page; running = record { base = act; expr = call_of code.now arg.now } }) }
    {
        let mut control = Control::new(alloc);
        control.start_call(alloc, code, arg, act)?;
        Ok(Task { page, control })
    }

    /// An equal task.
    pub fn fork(&self, alloc: Global) -> Result<Task, NoMemory>
        ensures { IfOk result (λ task. task ≡ self.now) }
    {
        Ok(Task {
            page: self.page,
            control: self.control.fork(alloc)?,
        })
    }

    /// The page for which it runs.
    pub fn page(&self) -> PageId
        ensures { result ≡ self.now.page }
    {
        self.page
    }
}
