//! Lists that forks share, of two kinds of cells: plain numbers, and words, which have a model of
//! their own.
ghost use Rattle.std.specs.Prelude.{◌≡◌, ◌<◌};

use super::given::text_of;
use ff_contract::Steps;
use ff_cow::{Cell, CowVec, Edit, MOST_CELLS, NoMemory, PushFail};
use std::alloc::{AllocError, Global};
use std::io;
use std::marker::{Brand, Model};
use std::sync::ledger::{Blank, Ledger};

#[derive(Debug, Drop)]
struct Number {
    value: u32,
}

impl<C: Ledger> Cell<C> for Number {
    fn copy(&self, copies: &mut Steps<C>) -> Result<Number, NoMemory> {
        copies.tick();
        Ok(Number { value: self.value })
    }
}

/// The change of a number, where it lies, into another one.
#[derive(Drop)]
struct Become {
    value: u32,
}

impl Edit<Number> for Become {
    ghost edited = { λ change number. record number { value = change.value } };

    fn edit(self, cell: &mut Number) {
        cell.value = self.value;
    }
}

#[derive(Debug, Drop)]
struct Word {
    bytes: Vec<u8>,
}

impl Model for Word {
    ghost use Rattle.std.specs.Prelude.{List, ℕ};

    ghost Value = { List ℕ };

    ghost view = { λ a. a.bytes.items };
}

impl<C: Ledger> Cell<C> for Word {
    fn copy(&self, copies: &mut Steps<C>) -> Result<Word, NoMemory> {
        copies.tick();
        Ok(Word {
            bytes: self.bytes.clone()?,
        })
    }
}

/// A fork of a list with another cell at a place, if the list has that place.
fn fork_with<V: Cell<C>, C: Ledger>(
    list: &CowVec<V>,
    place: u32,
    value: V,
    copies: &mut Steps<C>,
) -> Result<CowVec<V>, NoMemory> {
    let mut fork = list.fork(copies)?;
    if place < fork.len() {
        let Ok(()) = fork.set(place, value, copies) else {
            return Err(AllocError);
        };
    }
    Ok(fork)
}

/// The numbers from 0, as many as asked for, or as the list can hold.
fn counted_up<C: Ledger>(
    alloc: Global,
    count: u32,
    copies: &mut Steps<C>,
) -> Result<CowVec<Number>, NoMemory> {
    let mut list = CowVec::new(alloc);
    for value in 0..count {
        let Ok(()) = list.push(Number { value }, copies) else {
            return Err(AllocError);
        };
    }
    Ok(list)
}

/// The list of the numbers 1, 2 and 3, and a fork of it whose second cell is 9, and whose third one
/// became 8 where it lies.
fn number_lists<C: Ledger>(
    alloc: Global,
    blank: Blank,
) -> Result<(CowVec<Number>, CowVec<Number>), NoMemory>
    requires name { blank.name ≡ C.name }
    requires parts { blank.parts ≡ C.parts }
    requires some { 0 < blank.parts }
{
    let mut copies = Steps::<C>::new(blank);
    let mut list = CowVec::new(alloc);
    for value in 1..4 {
        let Ok(()) = list.push(Number { value }, &mut copies) else {
            return Err(AllocError);
        };
    }
    let mut fork = fork_with(&list, 1, Number { value: 9 }, &mut copies)?;
    if fork.len() == 3 {
        let Ok(()) = fork.edit(2, Become { value: 8 }, &mut copies) else {
            return Err(AllocError);
        };
    }
    Ok((list, fork))
}

fn word_of(alloc: Global, text: &str) -> Result<Word, NoMemory> {
    Ok(Word {
        bytes: text.as_bytes().to_vec(alloc)?,
    })
}

/// The list of three words, and a fork of it with another second word.
fn word_lists<C: Ledger>(
    alloc: Global,
    blank: Blank,
) -> Result<(CowVec<Word>, CowVec<Word>), NoMemory>
    requires name { blank.name ≡ C.name }
    requires parts { blank.parts ≡ C.parts }
    requires some { 0 < blank.parts }
{
    let mut copies = Steps::<C>::new(blank);
    let mut list = CowVec::new(alloc);
    for text in ["one ", "two ", "three"] {
        let Ok(()) = list.push(word_of(alloc, text)?, &mut copies) else {
            return Err(AllocError);
        };
    }
    let fork = fork_with(&list, 1, word_of(alloc, "nine ")?, &mut copies)?;
    Ok((list, fork))
}

fn numbers_of(alloc: Global, list: &CowVec<Number>) -> Result<Vec<u32>, NoMemory> {
    let mut numbers = Vec::new(alloc);
    for i in 0..list.len() {
        if let Some(number) = list.get(i) {
            numbers.push(number.value)?;
        }
    }
    Ok(numbers)
}

fn words_of(alloc: Global, list: &CowVec<Word>) -> Result<Vec<u8>, NoMemory> {
    let mut bytes = Vec::new(alloc);
    for i in 0..list.len() {
        if let Some(word) = list.get(i) {
            bytes.extend_from_slice(&word.bytes)?;
        }
    }
    Ok(bytes)
}

fn show_numbers(rt: &HostRuntime) -> io::Result<()> {
    let (list, fork) = number_lists::<Brand>(rt.alloc(), Blank::new(1))?;
    let numbers = numbers_of(rt.alloc(), &list)?;
    let others = numbers_of(rt.alloc(), &fork)?;
    println!(rt; "a list of numbers: {numbers:?}")?;
    println!(rt; "its fork, whose second cell was set to 9, and the third changed: {others:?}")
}

fn show_words(rt: &HostRuntime) -> io::Result<()> {
    let (list, fork) = word_lists::<Brand>(rt.alloc(), Blank::new(1))?;
    let words = words_of(rt.alloc(), &list)?;
    let others = words_of(rt.alloc(), &fork)?;
    println!(rt; "a list of words: {:?}", text_of(&words))?;
    println!(rt;
        "its fork, whose second cell was set to nine: {:?}",
        text_of(&others)
    )
}

/// What a push to a list of so many cells answers, and how many cells it has then.
fn push_to<C: Ledger>(
    alloc: Global,
    count: u32,
    value: Number,
    blank: Blank,
) -> Result<(Result<(), PushFail<Number>>, u32), NoMemory>
    requires name { blank.name ≡ C.name }
    requires parts { blank.parts ≡ C.parts }
    requires some { 0 < blank.parts }
{
    let mut copies = Steps::<C>::new(blank);
    let mut list = counted_up(alloc, count, &mut copies)?;
    let answer = list.push(value, &mut copies);
    Ok((answer, list.len()))
}

fn show_push(rt: &HostRuntime, count: u32) -> io::Result<()> {
    let pushed = push_to::<Brand>(rt.alloc(), count, Number { value: 7 }, Blank::new(1))?;
    let (answer, len) = pushed;
    println!(rt; "a push of 7 to {count} cells: {answer:?}, {len} cells")
}

const FORKS: u32 = 15;

/// The list of so many numbers from 0, and fifteen forks of it; in the fork of number k the cell at
/// 600 k is 1,000,000 + k.
fn list_and_fifteen_forks<C: Ledger>(
    alloc: Global,
    blank: Blank,
) -> Result<(CowVec<Number>, Vec<CowVec<Number>>), NoMemory>
    requires name { blank.name ≡ C.name }
    requires parts { blank.parts ≡ C.parts }
    requires some { 0 < blank.parts }
{
    let mut copies = Steps::<C>::new(blank);
    let list = counted_up(alloc, 10_000, &mut copies)?;
    let mut forks = Vec::new(alloc);
    for k in 0..FORKS {
        let value = Number {
            value: 1_000_000 + k,
        };
        forks.push(fork_with(&list, 600 * k, value, &mut copies)?)?;
    }
    Ok((list, forks))
}

/// The cells of a list that are other than their place, each with it.
fn other_cells(alloc: Global, list: &CowVec<Number>) -> Result<Vec<(u32, u32)>, NoMemory> {
    let mut others = Vec::new(alloc);
    for place in 0..list.len() {
        if let Some(cell) = list.get(place) {
            if cell.value != place {
                others.push((place, cell.value))?;
            }
        }
    }
    Ok(others)
}

fn show_list(rt: &HostRuntime, what: &str, list: &CowVec<Number>) -> io::Result<()> {
    let others = other_cells(rt.alloc(), list)?;
    println!(rt;
        "{what}: {} cells, other than their place: {others:?}",
        list.len()
    )
}

fn show_sixteen(rt: &HostRuntime) -> io::Result<()> {
    let (list, forks) = list_and_fifteen_forks::<Brand>(rt.alloc(), Blank::new(1))?;
    show_list(rt, "the list", &list)?;
    for fork in &forks {
        show_list(rt, "a fork", fork)?;
    }
    Ok(())
}

/// Prints what lists and their forks hold.
pub fn show(rt: &HostRuntime) -> io::Result<()> {
    println!(rt; "## A fork is written alone")?;
    show_numbers(rt)?;
    show_words(rt)?;
    println!(rt; "## A full list gives the value back")?;
    show_push(rt, MOST_CELLS - 1)?;
    show_push(rt, MOST_CELLS)?;
    println!(rt; "## Fifteen forks of a list of 10000 cells, with one cell set in each")?;
    show_sixteen(rt)
}
