//! One turn of a browser that isn't quiet.
ghost use Rattle.std.specs.Prelude.{◌≡◌, ◌-◌, ◌<◌, ◌↔◌, List, [], All, IsTrue, None, drop};
ghost use Rattle.ff_contract.specs.Rises.{RisesBy};
ghost use Rattle.ff_machine.specs.Answers.{Makes};
ghost use Rattle.ff_machine.specs.State as state;
ghost use Rattle.ff_machine.specs.Stores as stores;
ghost use Rattle.ff_machine.specs.Turns as turns;
ghost use Rattle.ff_machine.specs.Valid.{IsTask};
ghost use Rattle.ff_core.specs.Copies.{spending, turning};

use crate::parts::Parts;
use ff_contract::Steps;
use ff_name::NoMemory;
use ff_step::Task;
use ff_value::Out;
use std::collections::VecDeque;
use std::sync::ledger::Ledger;

impl Parts {
    /// One turn: with nothing to do the browser settles; without fuel it stops; else one fuel is
    /// spent on the first task, or on taking the first script that may run.
    pub(crate) fn turn<C: Ledger>(
        &mut self,
        outs: &mut Vec<Out>,
        copies: &mut Steps<C>,
    ) -> Result<(), NoMemory>
        requires { All (IsTask self.old.stores) self.old.tasks }
        ensures step { Makes self.old self.new outs.old.items outs.new.items (turns.turn self.old)
            result }
        ensures copies { RisesBy (turning self.old) copies.old copies.new }
    {
        if self.idle() {
            return self.settle(outs);
        }
        if self.fuel == 0 {
            return self.stop(outs);
        }
        self.spend();
        if self.tasks.is_empty() {
            self.begin_script(copies)
        } else {
            self.work(outs, copies)
        }
    }

    /// Whether nothing is to be done: there is no task, and no script may run.
    fn idle(&self) -> bool
        ensures { IsTrue result ↔ (turns.next_work self.now ≡ None) }
    {
        self.tasks.is_empty() && self.stores.windows().ready().is_none()
    }

    /// What was changed is shown, no fuel is left, and the browser is quiet.
    #[inline(never)]
    fn settle(&mut self, outs: &mut Vec<Out>) -> Result<(), NoMemory>
        ensures { Makes self.old self.new outs.old.items outs.new.items (turns.settle self.old)
            result }
    {
        self.stores.settle(outs)?;
        self.fuel = 0;
        self.quiet = true;
        Ok(())
    }

    /// All tasks are dropped.
    fn drop_tasks(&mut self)
        ensures { self.new ≡ record self.old { tasks = [] } }
    {
        self.tasks = VecDeque::new(self.alloc);
    }

    /// One fuel is spent.
    fn spend(&mut self)
        requires { 0 < self.old.fuel }
        ensures { self.new ≡ record self.old { fuel = self.old.fuel - 1 } }
    {
        self.fuel -= 1;
    }

    /// All tasks are dropped, and then the browser settles.
    #[inline(never)]
    fn stop(&mut self, outs: &mut Vec<Out>) -> Result<(), NoMemory>
        ensures { Makes self.old self.new outs.old.items outs.new.items (turns.stop self.old)
            result }
    {
        self.drop_tasks();
        outs.push(Out::Stopped)?;
        self.settle(outs)
    }

    /// One reduction of the first task, which is dropped where it is gone then.
    fn work<C: Ledger>(
        &mut self,
        outs: &mut Vec<Out>,
        copies: &mut Steps<C>,
    ) -> Result<(), NoMemory>
        requires { All (IsTask self.old.stores) self.old.tasks }
        ensures step { Makes self.old self.new outs.old.items outs.new.items
            (turns.first_work self.old self.old.tasks) result }
        ensures copies { RisesBy (spending self.old.stores self.old.tasks) copies.old copies.new }
    {
        match self.tasks.front_mut() {
            Some(task) => {
                if !task.work(self.alloc, &mut self.stores, outs, copies)? {
                    self.drop_first();
                }
                Ok(())
            }
            None => Ok(()),
        }
    }

    /// The first task is dropped.
    #[inline(never)]
    fn drop_first(&mut self)
        ensures { self.new ≡ record self.old { tasks = drop 1 self.old.tasks } }
    {
        self.tasks.pop_front();
    }

    /// Where there is no task, the first script that may run, if there is one, is taken out of its
    /// queue and is the one task.
    #[inline(never)]
    fn begin_script<C: Ledger>(&mut self, copies: &mut Steps<C>) -> Result<(), NoMemory>
        requires { self.old.tasks ≡ [] }
        ensures step { (puts : List Out) → Makes self.old self.new puts puts
            (state.given self.old (stores.take_ready self.old.stores) (turns.begin_script self.old))
            result }
        ensures copies { RisesBy 17 copies.old copies.new }
    {
        match self.stores.take_ready(copies)? {
            Some((page, body)) => {
                let act = self.stores.windows().act_of(page);
                let task = Task::script(self.alloc, page, act, &body)?;
                self.tasks.push_back(task)?;
                Ok(())
            }
            None => Ok(()),
        }
    }
}
