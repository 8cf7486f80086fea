//! Two growing lists of lines, compared.
ghost use Rattle.std.specs.Prelude.{◌≡◌, ◌+◌, [], ◌∷◌, ◌++◌, ℕ, List, IfOk, OnOk, OnErr};
ghost use Rattle.std.specs.Bool.{OnFalse};
ghost use Rattle.ff_audit.specs.Comparing.{ComparesAt, ComparesNext, compared, differs, first, found, plain_more, multi_more};

use crate::verdict::Verdict;
use ff_name::{NoMemory, Text};
use std::alloc::{AllocError, Global};
use std::collections::VecDeque;
use std::marker::Model;

/// Which program a line is of.
#[derive(Clone, Copy)]
pub(crate) enum Side {
    Plain,
    Multi,
}

/// The lines of both programs at a level, as far as they matter: of those that are equal, their
/// number. Where both have more, these begin with lines that differ, and later ones aren't kept.
#[derive(Drop)]
pub(crate) struct Comparison {
    /// How many lines are equal at the beginning.
    equal: u64,
    /// What the plain program has after them.
    plain: VecDeque<Text>,
    /// What the multi-executed one has.
    multi: VecDeque<Text>,
}

impl Model for Comparison {
    ghost use Rattle.ff_audit.specs.Comparing.{Kept, coded_kept};

    ghost Value = { Kept };

    ghost coded = { coded_kept };

    ghost view = { λ c. record { equal = c.equal; plain = c.plain.items; multi = c.multi.items } };
}

impl Comparison {
    /// No lines.
    #[tactic(auto, using(crate::proofs::Comparing::compares_none))]
    pub(crate) fn new(alloc: Global) -> Comparison
        ensures { ComparesAt result [] [] }
    {
        Comparison {
            equal: 0,
            plain: VecDeque::new(alloc),
            multi: VecDeque::new(alloc),
        }
    }

    /// One line more. Its one refusal is want of memory, after which the lists are as they were.
    pub(crate) fn add(&mut self, side: Side, line: Text) -> Result<(), NoMemory>
        ensures done { OnOk result ((ps ms : List (List ℕ)) → ComparesAt self.old ps ms
            → ComparesAt self.new (plain_more side ps (line ∷ []))
            (multi_more side ms (line ∷ []))) }
        ensures kept { OnErr result (self.new ≡ self.old) }
    {
        match side {
            Side::Plain => compare_next(&mut self.plain, &mut self.multi, &mut self.equal, line),
            Side::Multi => compare_next(&mut self.multi, &mut self.plain, &mut self.equal, line),
        }
    }

    /// One line more that is the same in both, where no line waits for its like. Its one refusal is
    /// a count that has no next number, after which the lists are as they were.
    pub(crate) fn add_same(&mut self) -> Result<(), NoMemory>
        requires plain { self.old.plain ≡ [] }
        requires multi { self.old.multi ≡ [] }
        ensures kept { OnErr result (self.new ≡ self.old) }
        ensures done { OnOk result ((line : List ℕ) (ps ms : List (List ℕ))
            → ComparesAt self.old ps ms
            → ComparesAt self.new (ps ++ line ∷ []) (ms ++ line ∷ [])) }
    {
        self.equal = one_more(self.equal)?;
        Ok(())
    }

    /// What is found of them.
    #[tactic(auto, using(crate::proofs::Comparing::found_is))]
    pub(crate) fn verdict(&self) -> Result<Verdict, NoMemory>
        ensures { IfOk result (λ verdict. (ps ms : List (List ℕ)) → ComparesAt self.now ps ms
            → verdict ≡ compared 0 ps ms) }
    {
        let plain = next_of(&self.plain)?;
        let multi = next_of(&self.multi)?;
        found(self.equal, plain, multi)
    }

    /// Whether they differ.
    #[tactic(auto, using(crate::proofs::Comparing::differs_plain, crate::proofs::Comparing::differs_multi))]
    pub(crate) fn differs(&self) -> bool
        ensures found { (ps ms : List (List ℕ)) → ComparesAt self.now ps ms
            → result ≡ differs (compared 0 ps ms) }
        ensures plain { OnFalse result (self.now.plain ≡ []) }
        ensures multi { OnFalse result (self.now.multi ≡ []) }
    {
        match self.plain.front() {
            Some(_) => true,
            None => !self.multi.is_empty(),
        }
    }
}

/// A line comes to one list, where `other` has the lines that the other list has more.
fn compare_next(
    own: &mut VecDeque<Text>,
    other: &mut VecDeque<Text>,
    equal: &mut u64,
    line: Text,
) -> Result<(), NoMemory>
    ensures met { OnOk result (ComparesNext own.old.items other.old.items equal.old line
        own.new.items other.new.items equal.new) }
    ensures own { OnErr result (own.new.items ≡ own.old.items) }
    ensures other { OnErr result (other.new.items ≡ other.old.items) }
    ensures equal { OnErr result (equal.new ≡ equal.old) }
{
    let Some(next) = other.front() else {
        own.push_back(line)?;
        return Ok(());
    };
    if !own.is_empty() {
        return Ok(());
    }
    let same = *next == line;
    if same {
        *equal = one_more(*equal)?;
        other.pop_front();
    } else {
        own.push_back(line)?;
        other.truncate(1);
    }
    Ok(())
}

/// The next number; a count that has none is answered as want of memory.
fn one_more(count: u64) -> Result<u64, NoMemory>
    ensures { IfOk result (λ more. more ≡ count + 1) }
{
    match count.checked_add(1) {
        Some(more) => Ok(more),
        None => Err(AllocError),
    }
}

/// A list's next line.
#[tactic(auto, using(crate::proofs::Comparing::first_none, crate::proofs::Comparing::first_some))]
fn next_of(lines: &VecDeque<Text>) -> Result<Option<Text>, NoMemory>
    ensures { IfOk result (λ next. next ≡ first lines.now.items) }
{
    match lines.front() {
        Some(line) => Ok(Some(line.copy()?)),
        None => Ok(None),
    }
}

/// What is found after so many equal lines by the next line of each list.
#[tactic(auto, using(crate::proofs::Comparing::found_more))]
fn found(equal: u64, plain: Option<Text>, multi: Option<Text>) -> Result<Verdict, NoMemory>
    ensures { IfOk result (λ verdict. verdict ≡ found equal plain multi) }
{
    if plain.is_none() && multi.is_none() {
        return Ok(Verdict::Clean(equal));
    }
    Ok(Verdict::Differs(one_more(equal)?, plain, multi))
}
