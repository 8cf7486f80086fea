ghost use Rattle.std.specs.List.{AllByRecursion};
ghost use Rattle.std.specs.Prelude.{ℕ, ◌≡◌, ◌≤◌, ◌<◌, ◌++◌, ◌∷◌, [], List, None, IsSome, MatchOption, false, IfOk, OnOk};
ghost use Rattle.ff_tree.specs.declared.tree.Expr.{out-Expr};
ghost use Rattle.ff_value.specs.declared.value.Val.{Val as Value};
ghost use Rattle.ff_value.specs.declared.value.Val.TheVariants as val;
ghost use Rattle.ff_term.specs.Redexes.{IsRedexOf};
ghost use Rattle.ff_term.specs.Rows.{IsLocal, IsTest, branch, local_row};
ghost use Rattle.ff_term.specs.Running.{Apply, none, more, Done, Inside, insides, is_value, redex, rewritten_in};
ghost use Rattle.ff_term.specs.Whole.{whole};
ghost use Rattle.ff_frames.specs.declared.frame.Head.{Head};
ghost use Rattle.ff_frames.specs.declared.frame.Head.TheVariants as head;
ghost use Rattle.ff_frames.specs.Bindings.{IsBinding, bound};
ghost use Rattle.ff_frames.specs.Emptied.{emptied};
ghost use Rattle.ff_frames.specs.Frames.{around, is_call, shown};
ghost use Rattle.ff_frames.specs.Heads.{IsEmptyHanded, IsFit, IsTopBare, with_values};
ghost use Rattle.ff_frames.specs.Lent.{named};
ghost use Rattle.ff_frames.specs.Rewrites.{IsCallFrame, IsIf, IsTested};
ghost use Rattle.ff_frames.specs.Seeking.{IsSettled};
ghost use Rattle.ff_frames.specs.Stacks.{evaluation, focus_in, with_part, out_of, IsCounted, IsReady, IsRewritten, IsValid, IsWithoutRedex};

use crate::frame::{Focus, Head};
use crate::hand::Hand;
use crate::operand::focus_on_body;
use crate::redex::{Redex, read_form, read_frame};
use crate::row::{put_branch, put_form, turn};
use crate::seek::seek;
use crate::source::Source;
use ff_shared::SharedList;
use ff_term::MOST_CALLS;
use ff_tree::{Body, Expr};
use ff_value::{ActId, Code, NoMemory, Val};
use std::alloc::Global;

/// A runtime expression as what stands around the part at hand, that part with the values of all
/// frames, the innermost activation, and how many calls stand around.
#[derive(Drop)]
pub(crate) struct Stack {
    pub(crate) heads: Vec<Head>,
    pub(crate) hand: Hand,
    pub(crate) act: ActId,
    pub(crate) depth: u32,
}

/// The frame around the one argument of a function. Its form gives only its kind: the function's
/// value stands for its one part.
fn call_frame(alloc: Global, code: &Code) -> Result<Head, NoMemory>
    ensures { IfOk result (IsCallFrame code.now) }
{
    let no_args = SharedList::from_vec(alloc, Vec::new(alloc))?;
    let form = Source::made(alloc, Expr::Apply(code.body.copy()?, no_args))?;
    Ok(Head::Part(form, 1))
}

/// The form of a frame around a test.
fn form_of(frame: Head) -> Source
    requires { IsTested frame }
    ensures is { (n : ℕ) × (frame ≡ head.Part result n) }
    ensures test { IsIf (out-Expr result) }
{
    match frame {
        Head::Part(form, _) => form,
        _ => unreachable!(),
    }
}

impl Stack {
    /// The stack of `null`.
    pub(crate) fn empty(alloc: Global) -> Stack
        ensures valid { IsValid result }
        ensures null { evaluation result ≡ emptied }
    {
        Stack::bare(alloc, ActId(0))
    }

    /// A stack with nothing at hand, in an activation.
    fn bare(alloc: Global, act: ActId) -> Stack
        ensures heads { result.heads.items ≡ [] }
        ensures values { result.hand.values.items ≡ [] }
        ensures form { result.hand.form ≡ None }
        ensures null { result.hand.null ≡ val.Null }
        ensures act { result.act ≡ act }
        ensures depth { result.depth ≡ 0 }
    {
        Stack {
            heads: Vec::new(alloc),
            hand: Hand::new(alloc),
            act,
            depth: 0,
        }
    }

    /// The stack of an expression that runs in an activation.
    pub(crate) fn started(alloc: Global, body: &Body, act: ActId) -> Result<Stack, NoMemory>
        ensures is { IfOk result (λ s. evaluation s
            ≡ record { base = act; expr = whole body.now }) }
        ensures valid { IfOk result IsValid }
    {
        let part = focus_on_body(body)?;
        let mut stack = Stack::bare(alloc, act);
        stack.walk_from(part)?;
        Ok(stack)
    }

    /// The stack of a call of a function with one argument.
    pub(crate) fn called(
        alloc: Global,
        code: &Code,
        arg: &Val,
        act: ActId,
    ) -> Result<Stack, NoMemory>
        ensures is { IfOk result (λ s. evaluation s
            ≡ record {
              base = act;
              expr = Apply (Done (val.Code code.now))
                  (more (Done arg.now) none);
            }) }
        ensures valid { IfOk result IsValid }
    {
        let part = Focus::Value(arg.copy()?);
        let frame = call_frame(alloc, code)?;
        let mut stack = Stack::bare(alloc, act);
        stack.hand.values.push(Val::Code(code.copy()?))?;
        stack.heads.push(frame)?;
        stack.walk_from(part)?;
        Ok(stack)
    }

    /// An equal stack.
    pub(crate) fn copied(&self, alloc: Global) -> Result<Stack, NoMemory>
        requires { IsValid self.now }
        ensures same { IfOk result (λ s. evaluation s ≡ evaluation self.now) }
        ensures valid { IfOk result IsValid }
    {
        let mut heads = Vec::new(alloc);
        for head in &self.heads {
            heads.push(head.copy()?)?;
        }
        Ok(Stack {
            heads,
            hand: self.hand.copied(alloc)?,
            act: self.act,
            depth: self.depth,
        })
    }

    /// Goes out of a frame that is taken off.
    fn go_out_of(&mut self, frame: &Head)
        requires { is_call (with_values frame.now []) ≤ self.old.depth }
        ensures { self.new ≡ out_of frame.now self.old }
    {
        if let Head::Inside(outer) = frame {
            self.act = *outer;
            self.depth -= 1;
        }
    }

    /// Takes an `if` out whose test is evaluated, or a form that became one; gives the form.
    fn take_test(&mut self) -> Source
        requires valid { IsValid self.old }
        requires open { is_value (evaluation self.old).expr ≡ false }
        requires test { IsTest (redex (evaluation self.old).expr) }
        ensures out { IsWithoutRedex self.old self.new }
        ensures is { (vs : List Value) × (v : Value)
            × (redex (evaluation self.old).expr ≡ around (out-Expr result) vs (Done v)) }
        ensures test { IsIf (out-Expr result) }
    {
        match self.heads.pop() {
            None => unreachable!(),
            Some(head) => {
                self.hand.drop_values(&head);
                form_of(head)
            }
        }
    }

    /// Takes the redex out, and drops it.
    fn drop_redex(&mut self)
        requires valid { IsValid self.old }
        requires open { is_value (evaluation self.old).expr ≡ false }
        ensures { IsWithoutRedex self.old self.new }
    {
        match self.hand.take_form() {
            Some(_form) => (),
            None => match self.heads.pop() {
                None => unreachable!(),
                Some(head) => {
                    self.hand.drop_values(&head);
                    self.go_out_of(&head);
                }
            },
        }
    }

    /// Takes the innermost frame off, which holds no value; the value at hand stays.
    fn leave(&mut self)
        requires valid { IsValid self.old }
        requires open { is_value (evaluation self.old).expr ≡ false }
        requires free { self.old.hand.form ≡ None }
        requires bare { IsTopBare self.old.heads.items }
        ensures framed { (rest : List Head) × (f : Head) × (self.old.heads.items ≡ rest ++ f ∷ []) }
        ensures rewrites { IsRewritten (shown (focus_in self.old)) self.old self.new }
    {
        match self.heads.pop() {
            None => unreachable!(),
            Some(head) => self.go_out_of(&head),
        }
    }

    /// Walks to the redex from the part at hand.
    fn walk(&mut self) -> Result<(), NoMemory>
        requires { IsReady self.old }
        ensures same { OnOk result (evaluation self.new ≡ evaluation self.old) }
        ensures valid { OnOk result (IsValid self.new) }
    {
        seek(&mut self.heads, &mut self.hand)
    }

    /// Puts a part at hand, and walks to the redex from there.
    fn walk_from(&mut self, part: Focus) -> Result<(), NoMemory>
        requires empty { IsEmptyHanded self.old.heads.items self.old.hand }
        requires fit { AllByRecursion IsFit self.old.heads.items }
        requires counted { IsCounted self.old }
        requires settled { IsSettled part }
        ensures same { OnOk result (evaluation self.new ≡ with_part self.old (shown part)) }
        ensures valid { OnOk result (IsValid self.new) }
    {
        self.hand.hold(part)?;
        self.walk()
    }

    /// Puts a call that runs in an activation of its own for the redex.
    pub(crate) fn enter(&mut self, act: ActId, body: &Body) -> Result<(), NoMemory>
        requires valid { IsValid self.old }
        requires open { is_value (evaluation self.old).expr ≡ false }
        requires shallow { insides (evaluation self.old).expr < MOST_CALLS }
        ensures rewrites { OnOk result (evaluation self.new
            ≡ rewritten_in (λ _. Inside act (whole body.now)) (evaluation self.old)) }
        ensures valid { OnOk result (IsValid self.new) }
    {
        let part = focus_on_body(body)?;
        self.drop_redex();
        self.heads.push(Head::Inside(self.act))?;
        self.act = act;
        self.depth += 1;
        self.walk_from(part)
    }

    /// Puts a value for the redex.
    pub(crate) fn give(&mut self, value: Val) -> Result<(), NoMemory>
        requires valid { IsValid self.old }
        requires open { is_value (evaluation self.old).expr ≡ false }
        ensures rewrites { OnOk result (evaluation self.new
            ≡ rewritten_in (λ _. Done value) (evaluation self.old)) }
        ensures valid { OnOk result (IsValid self.new) }
    {
        self.drop_redex();
        self.hand.hold_value(value)?;
        self.walk()
    }

    /// Puts a copy of a value for the redex.
    pub(crate) fn give_copy(&mut self, value: &Val) -> Result<(), NoMemory>
        requires valid { IsValid self.old }
        requires open { is_value (evaluation self.old).expr ≡ false }
        ensures rewrites { OnOk result (evaluation self.new
            ≡ rewritten_in (λ _. Done value.now) (evaluation self.old)) }
        ensures valid { OnOk result (IsValid self.new) }
    {
        self.drop_redex();
        self.hand.hold_copy(value)?;
        self.walk()
    }

    /// Puts the value of a `let` or `set` for it.
    pub(crate) fn keep(&mut self) -> Result<(), NoMemory>
        requires valid { IsValid self.old }
        requires open { is_value (evaluation self.old).expr ≡ false }
        requires binding { IsBinding (redex (evaluation self.old).expr) }
        ensures rewrites { OnOk result (evaluation self.new
            ≡ rewritten_in (λ _. bound (redex (evaluation self.old).expr)) (evaluation self.old)) }
        ensures valid { OnOk result (IsValid self.new) }
    {
        self.leave();
        self.walk()
    }

    /// Reduces a redex that no store decides.
    pub(crate) fn reduce(&mut self) -> Result<(), NoMemory>
        requires valid { IsValid self.old }
        requires open { is_value (evaluation self.old).expr ≡ false }
        requires local { IsLocal (redex (evaluation self.old).expr) }
        ensures rewrites { OnOk result (evaluation self.new
            ≡ rewritten_in (λ _. local_row (redex (evaluation self.old).expr))
            (evaluation self.old)) }
        ensures valid { OnOk result (IsValid self.new) }
    {
        if self.hand.form.is_some() {
            self.reduce_form()?;
        } else {
            self.reduce_frame()?;
        }
        self.walk()
    }

    /// Puts what stands for the form at hand.
    fn reduce_form(&mut self) -> Result<(), NoMemory>
        requires valid { IsValid self.old }
        requires form { IsSome self.old.hand.form }
        requires local { IsLocal (redex (evaluation self.old).expr) }
        ensures { OnOk result (IsRewritten (local_row (redex (evaluation self.old).expr)) self.old
            self.new) }
    {
        match self.hand.take_form() {
            None => unreachable!(),
            Some(form) => put_form(form, &mut self.heads, &mut self.hand),
        }
    }

    /// Puts what stands for the value at hand and the innermost frame.
    fn reduce_frame(&mut self) -> Result<(), NoMemory>
        requires valid { IsValid self.old }
        requires open { is_value (evaluation self.old).expr ≡ false }
        requires free { self.old.hand.form ≡ None }
        requires local { IsLocal (redex (evaluation self.old).expr) }
        ensures { OnOk result (IsRewritten (local_row (redex (evaluation self.old).expr)) self.old
            self.new) }
    {
        match self.heads.last_mut() {
            None => unreachable!(),
            Some(head) => {
                if !turn(head, &mut self.hand)? {
                    self.leave()
                }
                Ok(())
            }
        }
    }

    /// Takes a branch of an `if` whose test is evaluated.
    pub(crate) fn choose(&mut self, yes: bool) -> Result<(), NoMemory>
        requires valid { IsValid self.old }
        requires open { is_value (evaluation self.old).expr ≡ false }
        requires test { IsTest (redex (evaluation self.old).expr) }
        ensures rewrites { OnOk result (evaluation self.new
            ≡ rewritten_in (λ _. branch yes (redex (evaluation self.old).expr))
            (evaluation self.old)) }
        ensures valid { OnOk result (IsValid self.new) }
    {
        let form = self.take_test();
        put_branch(form, yes, &mut self.heads, &mut self.hand)?;
        self.walk()
    }

    /// The innermost frame, or `None` where nothing stands around the part at hand.
    fn top(&self) -> Option<&Head>
        ensures { MatchOption result (self.now.heads.items ≡ [])
            (λ h. (rest : List Head) × (self.now.heads.items ≡ rest ++ h.now ∷ [])) }
    {
        self.heads.last()
    }

    /// The value, where the expression is one.
    pub(crate) fn value(&self) -> Option<&Val>
        requires { IsValid self.now }
        ensures { MatchOption result (is_value (evaluation self.now).expr ≡ false)
            (λ v. (evaluation self.now).expr ≡ Done v.now) }
    {
        match self.top() {
            Some(_) => None,
            None => self.hand.value(),
        }
    }

    /// The redex.
    pub(crate) fn next(&self) -> Redex<'_>
        requires valid { IsValid self.now }
        requires open { is_value (evaluation self.now).expr ≡ false }
        ensures { IsRedexOf (named result) (redex (evaluation self.now).expr) }
    {
        match &self.hand.form {
            Some(form) => read_form(form.get()),
            None => match self.top() {
                None => unreachable!(),
                Some(head) => read_frame(head, self.hand.operands(head)),
            },
        }
    }
}
