ghost use Rattle.std.specs.Prelude.{◌≡◌, ◌≢◌, ℕ, ◌<◌, ◌≤◌, length, Err, IfOk, IfErr, IfSome, IfNone, List, [], ◌∷◌, codes};
ghost use Rattle.ff_contract.specs.Answering.{Answers};
ghost use Rattle.ff_lattice.specs.Bounds.{IsLattice, IsJoin, IsMeet};
ghost use Rattle.ff_lattice.specs.LevelSet.{levels_where};
ghost use Rattle.ff_lattice.specs.Levels.{AreNamed, AreLevels, Reaches, IsFault, IsLatticeOf};
ghost use Rattle.ff_lattice.specs.Order.{Order, size, leq, name, level_named, join, meet, bottom, top, two, AtOrBelow, IsTag, IsOrder};

use crate::bounds::{check_order, join_in};
use crate::names::check_names;
use crate::numbering::numbered;
use crate::relation::{close, turned};
use crate::{LatticeFault, LevelSet, NoMemory, Pair};
use ff_name::{Level, Text};
use std::alloc::Global;
use std::marker::Model;

/// The levels with their names and their order, which is a lattice. A level's number is its place
/// among the names.
#[derive(Debug)]
pub struct Lattice {
    names: Vec<Text>,
    up: Vec<LevelSet>,
    down: Vec<LevelSet>,
}

// Written out, so that the proof of a caller sees one call and not a part for each field.
impl Drop for Lattice {
    fn drop(self) {
        let Lattice {
            names: _names,
            up: _up,
            down: _down,
        } = self;
    }
}

impl Model for Lattice {
    ghost use Rattle.ff_lattice.specs.Order.{Order};
    ghost use Rattle.ff_lattice.specs.Relation.{IsKept};

    ghost Value = { Order };

    ghost view = { λ s. record { names = s.names.items; above = s.up.items } };

    ghost invariant = { λ s. IsKept (record { names = s.names.items; above = s.up.items })
        s.down.items };
}

impl Lattice {
    /// The level `L` below the level `H`.
    pub fn two(alloc: Global) -> Result<Lattice, NoMemory>
        ensures { IfOk result (λ lattice. lattice ≡ two) }
    {
        let names = two_names(alloc)?;
        let low = LevelSet::empty().with(Level(0));
        let high = LevelSet::empty().with(Level(1));
        let both = low.with(Level(1));
        Ok(Lattice {
            names,
            up: vec![in alloc; both, high]?,
            down: vec![in alloc; low, both]?,
        })
    }

    /// The lattice of these levels, in which the low level of each pair is at or below the high
    /// one: the least such order that is reflexive and transitive. Its refusals, in their order:
    /// there are no names; more than 16; a name that isn't a letter followed by at most 31 letters,
    /// digits, `_` or `-`; a name that stands before; a pair of a name that is no level; two levels
    /// that are each at or below the other; two with no join; two with no meet. Want of memory may
    /// come in place of any of these.
    pub fn build(alloc: Global, names: &[Text], below: &[Pair]) -> Result<Lattice, LatticeFault>
        ensures found { IfOk result (IsLatticeOf names.now below.now) }
        ensures fault { IfErr result (λ fault. fault ≢ LatticeFault.NoMemory
            → IsFault names.now below.now fault) }
        ensures only { AreLevels names.now below.now
            → IsLattice (Reaches names.now below.now) (length names.now)
            → IfErr result (λ fault. fault ≡ LatticeFault.NoMemory) }
        ensures exact { (fault : LatticeFault) → IsFault names.now below.now fault
            → Answers result (Err fault) (Err LatticeFault.NoMemory) }
    {
        check_names(names)?;
        Lattice::of_named(alloc, names, below)
    }

    /// The lattice of names that are each spelled as the name of a level.
    fn of_named(alloc: Global, names: &[Text], below: &[Pair]) -> Result<Lattice, LatticeFault>
        requires { AreNamed names.now }
        ensures found { IfOk result (IsLatticeOf names.now below.now) }
        ensures fault { IfErr result (λ fault. fault ≢ LatticeFault.NoMemory
            → IsFault names.now below.now fault) }
    {
        let (names, mut up) = numbered(alloc, names, below)?;
        close(&mut up);
        let down = turned(alloc, &up)?;
        check_order(&names, &up, &down)?;
        Ok(Lattice { names, up, down })
    }

    /// How many levels there are: 1 to 16.
    pub fn size(&self) -> u8
        ensures value { result ≡ size self.now }
        ensures valid { IsOrder self.now }
    {
        self.names.len() as u8
    }

    /// Whether the level `a` is at or below the level `b`.
    pub fn leq(&self, a: Level, b: Level) -> bool
        requires first { a.0 < size self.now }
        requires second { b.0 < size self.now }
        ensures { result ≡ leq self.now a.0 b.0 }
    {
        self.up[a.0 as usize].has(b)
    }

    /// The least level that both `a` and `b` are at or below.
    pub fn join(&self, a: Level, b: Level) -> Level
        requires first { a.0 < size self.now }
        requires second { b.0 < size self.now }
        ensures value { result.0 ≡ join self.now a.0 b.0 }
        ensures bound { IsJoin (AtOrBelow self.now) (size self.now) a.0 b.0 result.0 }
    {
        match join_in(&self.up, a, b) {
            Some(level) => level,
            None => unreachable!(),
        }
    }

    /// The greatest level that is at or below both `a` and `b`.
    pub fn meet(&self, a: Level, b: Level) -> Level
        requires first { a.0 < size self.now }
        requires second { b.0 < size self.now }
        ensures value { result.0 ≡ meet self.now a.0 b.0 }
        ensures bound { IsMeet (AtOrBelow self.now) (size self.now) a.0 b.0 result.0 }
    {
        match join_in(&self.down, a, b) {
            Some(level) => level,
            None => unreachable!(),
        }
    }

    /// The level that is at or below each.
    pub fn bottom(&self) -> Level
        ensures value { result.0 ≡ bottom self.now }
        ensures within { result.0 < size self.now }
        ensures least { (l : ℕ) → l < size self.now → AtOrBelow self.now result.0 l }
    {
        let mut least = Level(0);
        for number in 1..self.size() {
            least = self.meet(least, Level(number));
        }
        least
    }

    /// The level that is at or above each.
    pub fn top(&self) -> Level
        ensures value { result.0 ≡ top self.now }
        ensures within { result.0 < size self.now }
        ensures greatest { (l : ℕ) → l < size self.now → AtOrBelow self.now l result.0 }
    {
        let mut greatest = Level(0);
        for number in 1..self.size() {
            greatest = self.join(greatest, Level(number));
        }
        greatest
    }

    /// The levels that are at or above `l`.
    pub fn up(&self, l: Level) -> LevelSet
        requires { l.0 < size self.now }
        ensures { result ≡ levels_where (leq self.now l.0) }
    {
        self.up[l.0 as usize]
    }

    /// The name of the level `l`.
    pub fn name(&self, l: Level) -> &Text
        requires { l.0 < size self.now }
        ensures value { result.now ≡ name self.now l.0 }
        ensures valid { IsOrder self.now }
    {
        &self.names[l.0 as usize]
    }

    /// The level of this name, or `None` where no level has it.
    #[tactic(auto, using(crate::proofs::Named::no_level_found))]
    pub fn by_name(&self, bytes: &[u8]) -> Option<Level>
        ensures value { result ≡ level_named self.now bytes.now }
        ensures valid { IsOrder self.now }
        ensures within { IsTag self.now result }
        ensures found { IfSome result (λ l. (l.0 < size self.now)
            × (name self.now l.0 ≡ bytes.now)) }
        ensures none { IfNone result ((l : ℕ) → l < size self.now → name self.now l ≢ bytes.now) }
    {
        for number in 0..self.size() {
            if self.name(Level(number)).as_bytes() == bytes {
                return Some(Level(number));
            }
        }
        None
    }
}

/// The names `L` and `H`.
fn two_names(alloc: Global) -> Result<Vec<Text>, NoMemory>
    ensures { IfOk result (λ names. names.items ≡ codes "L" ∷ codes "H" ∷ []) }
{
    let mut names = Vec::new(alloc);
    names.push(Text::of_utf8(alloc, b"L")?)?;
    names.push(Text::of_utf8(alloc, b"H")?)?;
    Ok(names)
}
