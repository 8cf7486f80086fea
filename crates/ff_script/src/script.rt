//! A script that runs by itself: its control, and what it needs of a store.
ghost use Rattle.std.specs.Prelude.{◌≡◌, ◌<◌, ◌≤◌, false, IfOk, OnSome};
ghost use Rattle.ff_term.specs.Running.{insides, is_value};

use crate::store::Store;
use ff_frames::{Control, Redex};
use ff_operators::{Applied, apply};
use ff_term::MOST_CALLS;
use ff_value::{ActId, Body, Code, Names, NoMemory, Op, Val};
use std::alloc::Global;

/// A script that runs.
#[derive(Drop)]
pub struct Script {
    control: Control,
    store: Store,
}

impl Script {
    /// Begins to run an expression in activation 0.
    pub fn start(alloc: Global, body: &Body) -> Result<Script, NoMemory> {
        let mut control = Control::new(alloc);
        control.start(alloc, body, ActId(0))?;
        let store = Store::new(alloc)?;
        Ok(Script { control, store })
    }

    /// Begins to call a function without parameters, whose body is an expression, with the number
    /// 6.
    pub fn start_call(alloc: Global, body: &Body) -> Result<Script, NoMemory> {
        let params = Names::from_vec(alloc, Vec::new(alloc))?;
        let code = code(&params, body, ActId(0))?;
        let mut control = Control::new(alloc);
        control.start_call(alloc, &code, &Val::Num(6), ActId(0))?;
        let store = Store::new(alloc)?;
        Ok(Script { control, store })
    }

    /// A script that goes on in the same way.
    pub fn fork(&self, alloc: Global) -> Result<Script, NoMemory> {
        let control = self.control.fork(alloc)?;
        let store = self.store.fork(alloc)?;
        Ok(Script { control, store })
    }

    /// How many calls stand around the redex.
    pub fn depth(&self) -> u32 {
        self.control.depth()
    }

    /// The value, where nothing is left to reduce.
    pub fn done(&self) -> Option<&Val> {
        self.control.done()
    }

    /// The redex, which the next turn reduces, or `None` where there is none.
    pub fn next(&self) -> Option<Redex<'_>> {
        match self.control.done() {
            Some(_) => None,
            None => Some(self.control.next()),
        }
    }

    /// Reduces once; answers whether there was a redex.
    pub fn turn(&mut self, alloc: Global) -> Result<bool, NoMemory> {
        if self.control.done().is_some() {
            return Ok(false);
        }
        reduce(alloc, &mut self.control, &mut self.store)?;
        Ok(true)
    }
}

fn reduce(alloc: Global, control: &mut Control, store: &mut Store) -> Result<(), NoMemory>
    requires { is_value control.old.expr ≡ false }
{
    match control.next() {
        Redex::Local => control.local(alloc),
        Redex::Test(test) => {
            let yes = is_true(test);
            control.choose(alloc, yes)
        }
        Redex::Var(name) => match store.get(control.act(), name) {
            Some(value) => control.give_copy(alloc, value),
            None => control.give(alloc, Val::Null),
        },
        Redex::Let(name, value) | Redex::Set(name, value) => {
            store.set(control.act(), name, value)?;
            control.keep(alloc)
        }
        Redex::Make(params, body) => {
            let code = code(params, body, control.act())?;
            control.give(alloc, Val::Code(code))
        }
        Redex::Apply(callee, args) => {
            let body = called(control.depth(), store, callee, args)?;
            enter(alloc, control, body)
        }
        Redex::Prim(op, args) => {
            let value = operate(alloc, op, args);
            control.give(alloc, value)
        }
        Redex::Tree(_) => control.give(alloc, Val::Null),
    }
}

fn is_true(value: &Val) -> bool {
    match value {
        Val::Bool(b) => *b,
        _ => false,
    }
}

fn code(params: &Names, body: &Body, env: ActId) -> Result<Code, NoMemory> {
    let params = params.copy()?;
    let body = body.copy()?;
    Ok(Code { params, body, env })
}

/// The body of a function that is called inside so many other calls, whose argument is put into its
/// activation; `None` where none may be called.
fn called(
    depth: u32,
    store: &mut Store,
    callee: &Val,
    args: &[Val],
) -> Result<Option<Body>, NoMemory>
    requires { depth ≤ MOST_CALLS }
    ensures { IfOk result (λ found. OnSome found (depth < MOST_CALLS)) }
{
    match callee {
        Val::Code(code) if depth < MOST_CALLS => {
            if let Some(arg) = args.first() {
                store.put(inside(depth), arg)?;
            }
            Ok(Some(code.body.copy()?))
        }
        _ => Ok(None),
    }
}

/// The activation of a call inside so many others: the one after theirs.
fn inside(depth: u32) -> ActId
    requires { depth < MOST_CALLS }
{
    ActId(depth + 1)
}

/// Puts the body that is called for the redex, or `null` where there is none.
fn enter(alloc: Global, control: &mut Control, body: Option<Body>) -> Result<(), NoMemory>
    requires unfinished { is_value control.old.expr ≡ false }
    requires shallow { OnSome body (insides control.old.expr < MOST_CALLS) }
{
    match body {
        Some(body) => {
            let act = inside(control.depth());
            control.enter(alloc, act, &body)
        }
        None => control.give(alloc, Val::Null),
    }
}

/// What an operator gives, or `null` where it fails.
fn operate(alloc: Global, op: Op, args: &[Val]) -> Val {
    match apply(alloc, op, args, 0) {
        Ok(Applied { value, .. }) => value,
        Err(_) => Val::Null,
    }
}
