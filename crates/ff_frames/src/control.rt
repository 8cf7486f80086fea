ghost use Rattle.std.specs.Prelude.{◌≡◌, ◌≤◌, ◌<◌, false, IfOk, OnErr, OnOk, MatchOption};
ghost use Rattle.ff_term.specs.Running.{Done, Inside, call_of, innermost, insides, is_value, redex, rewritten_in};
ghost use Rattle.ff_term.specs.Rows.{IsLocal, IsTest, branch, local_row};
ghost use Rattle.ff_term.specs.Whole.{whole};
ghost use Rattle.ff_term.specs.Redexes.{IsRedexOf};
ghost use Rattle.ff_term.specs.Calls.{calls_around};
ghost use Rattle.ff_frames.specs.Bindings.{IsBinding, bound};
ghost use Rattle.ff_frames.specs.Emptied.{emptied};
ghost use Rattle.ff_frames.specs.Lent.{named};
ghost use Rattle.ff_frames.specs.Stacks.{IsValid, evaluation};

use crate::redex::Redex;
use crate::stack::Stack;
use ff_term::MOST_CALLS;
use ff_tree::Body;
use ff_value::{ActId, Code, NoMemory, Val};
use std::alloc::Global;
use std::marker::Model;

/// A script's control: contracts see a runtime expression, and the activation in which it runs
/// where no call stands around.
///
/// After want of memory a control is that of `null`, as a new one is.
pub struct Control {
    stack: Stack,
}

// Written out, so that the proof of a caller sees one call and not a part for each field.
impl Drop for Control {
    fn drop(self) {
        let Control { stack: _stack } = self;
    }
}

impl Model for Control {
    ghost use Rattle.ff_term.specs.Running.{Evaluation};
    ghost use Rattle.ff_term.specs.Coding.{coded_evaluation};
    ghost use Rattle.ff_frames.specs.Stacks.{evaluation, IsValid};

    ghost Value = { Evaluation };

    ghost coded = { coded_evaluation };

    ghost view = { λ c. evaluation c.stack };

    ghost invariant = { λ c. IsValid c.stack };
}

/// Keeps a stack whose change was made, and empties one whose change was refused.
#[inline(always)]
fn kept(alloc: Global, stack: &mut Stack, done: Result<(), NoMemory>) -> Result<(), NoMemory>
    requires { OnOk done (IsValid stack.old) }
    ensures answer { result ≡ done }
    ensures valid { IsValid stack.new }
    ensures kept { OnOk done (stack.new ≡ stack.old) }
    ensures emptied { OnErr done (evaluation stack.new ≡ emptied) }
{
    if done.is_err() {
        clear(alloc, stack);
    }
    done
}

/// Empties a stack.
#[cold]
#[inline(never)]
fn clear(alloc: Global, stack: &mut Stack)
    ensures valid { IsValid stack.new }
    ensures emptied { evaluation stack.new ≡ emptied }
{
    *stack = Stack::empty(alloc);
}

impl Control {
    /// The control of `null`.
    pub fn new(alloc: Global) -> Control
        ensures { result ≡ emptied }
    {
        Control {
            stack: Stack::empty(alloc),
        }
    }

    /// An equal control.
    pub fn fork(&self, alloc: Global) -> Result<Control, NoMemory>
        ensures { IfOk result (λ c. c ≡ self.now) }
    {
        let stack = self.stack.copied(alloc)?;
        Ok(Control { stack })
    }

    /// Makes it the control of `null`.
    pub fn clear(&mut self, alloc: Global)
        ensures { self.new ≡ emptied }
    {
        clear(alloc, &mut self.stack);
    }

    /// Begins to run an expression in an activation.
    pub fn start(&mut self, alloc: Global, body: &Body, act: ActId) -> Result<(), NoMemory>
        ensures done { OnOk result (self.new ≡ record { base = act; expr = whole body.now }) }
        ensures emptied { OnErr result (self.new ≡ emptied) }
    {
        self.stack = Stack::empty(alloc);
        self.stack = Stack::started(alloc, body, act)?;
        Ok(())
    }

    /// Begins to call a function with one argument.
    pub fn start_call(
        &mut self,
        alloc: Global,
        code: &Code,
        arg: &Val,
        act: ActId,
    ) -> Result<(), NoMemory>
        ensures done { OnOk result (self.new ≡ record
            { base = act; expr = call_of code.now arg.now }) }
        ensures emptied { OnErr result (self.new ≡ emptied) }
    {
        self.stack = Stack::empty(alloc);
        self.stack = Stack::called(alloc, code, arg, act)?;
        Ok(())
    }

    /// The value, where the expression is one.
    pub fn done(&self) -> Option<&Val>
        ensures { MatchOption result (is_value self.now.expr ≡ false)
            (λ v. self.now.expr ≡ Done v.now) }
    {
        self.stack.value()
    }

    /// How many calls the expression has, at most [`MOST_CALLS`]. Each stands around the redex, or
    /// is it.
    pub fn depth(&self) -> u32
        ensures count { result ≡ insides self.now.expr }
        ensures around { result ≡ calls_around self.now.expr }
        ensures small { result ≤ MOST_CALLS }
    {
        self.stack.depth
    }

    /// The innermost activation.
    pub fn act(&self) -> ActId
        ensures { result ≡ innermost self.now.base self.now.expr }
    {
        self.stack.act
    }

    /// The redex, lent.
    pub fn next(&self) -> Redex<'_>
        requires { is_value self.now.expr ≡ false }
        ensures { IsRedexOf (named result) (redex self.now.expr) }
    {
        self.stack.next()
    }

    /// Reduces a redex that no store decides.
    pub fn local(&mut self, alloc: Global) -> Result<(), NoMemory>
        requires unfinished { is_value self.old.expr ≡ false }
        requires local { IsLocal (redex self.old.expr) }
        ensures done { OnOk result (self.new ≡ rewritten_in local_row self.old) }
        ensures emptied { OnErr result (self.new ≡ emptied) }
    {
        let done = self.stack.reduce();
        kept(alloc, &mut self.stack, done)
    }

    /// Takes a branch of an `if` whose test is evaluated.
    pub fn choose(&mut self, alloc: Global, yes: bool) -> Result<(), NoMemory>
        requires unfinished { is_value self.old.expr ≡ false }
        requires test { IsTest (redex self.old.expr) }
        ensures done { OnOk result (self.new ≡ rewritten_in (branch yes) self.old) }
        ensures emptied { OnErr result (self.new ≡ emptied) }
    {
        let done = self.stack.choose(yes);
        kept(alloc, &mut self.stack, done)
    }

    /// Puts a value for the redex.
    pub fn give(&mut self, alloc: Global, value: Val) -> Result<(), NoMemory>
        requires { is_value self.old.expr ≡ false }
        ensures done { OnOk result (self.new ≡ rewritten_in (λ _. Done value) self.old) }
        ensures emptied { OnErr result (self.new ≡ emptied) }
    {
        let done = self.stack.give(value);
        kept(alloc, &mut self.stack, done)
    }

    /// Puts a copy of a lent value for the redex.
    pub fn give_copy(&mut self, alloc: Global, value: &Val) -> Result<(), NoMemory>
        requires { is_value self.old.expr ≡ false }
        ensures done { OnOk result (self.new ≡ rewritten_in (λ _. Done value.now) self.old) }
        ensures emptied { OnErr result (self.new ≡ emptied) }
    {
        let done = self.stack.give_copy(value);
        kept(alloc, &mut self.stack, done)
    }

    /// Puts the value of a `let` or `set` for it, once the variable has the value.
    pub fn keep(&mut self, alloc: Global) -> Result<(), NoMemory>
        requires unfinished { is_value self.old.expr ≡ false }
        requires binding { IsBinding (redex self.old.expr) }
        ensures done { OnOk result (self.new ≡ rewritten_in bound self.old) }
        ensures emptied { OnErr result (self.new ≡ emptied) }
    {
        let done = self.stack.keep();
        kept(alloc, &mut self.stack, done)
    }

    /// Puts a call for the redex, which runs in an activation of its own.
    pub fn enter(&mut self, alloc: Global, act: ActId, body: &Body) -> Result<(), NoMemory>
        requires unfinished { is_value self.old.expr ≡ false }
        requires shallow { insides self.old.expr < MOST_CALLS }
        ensures done { OnOk result (self.new ≡ rewritten_in (λ _. Inside act (whole body.now))
            self.old) }
        ensures emptied { OnErr result (self.new ≡ emptied) }
    {
        let done = self.stack.enter(act, body);
        kept(alloc, &mut self.stack, done)
    }
}
