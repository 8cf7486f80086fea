//! The lines, one after another.
ghost use Rattle.std.specs.Prelude.{◌≡◌, ◌<◌};

use crate::gathering::{add, add_many};
use crate::printing::print_rows;
use crate::spoiling::print_spoiled;
use crate::texts::print_text;
use anyhow::Result;
use ff_contract::Steps;
use ff_name::NoMemory;
use ff_policy::Policy;
use ff_save::restore_stores;
use ff_saved_rows::Draft;
use std::alloc::Global;
use std::mem;
use std::sync::ledger::{Blank, Ledger};

/// What was read of a case: its policy, the rows that were gathered, and the lines of a text.
#[derive(Drop)]
struct Case {
    policy: Policy,
    draft: Draft,
    lines: Vec<String>,
}

/// Follows each line.
pub fn run<C: Ledger>(rt: &HostRuntime, blank: Blank) -> Result<()>
    requires name { blank.name ≡ C.name }
    requires parts { blank.parts ≡ C.parts }
    requires some { 0 < blank.parts }
{
    let mut copies = Steps::<C>::new(blank);
    let mut case = Case::new(rt.alloc())?;
    follow_all(rt, &mut case, &mut copies)
}

/// Follows each line. What is read of a case is lent, so that the proof drops it at no way out of
/// the loop.
fn follow_all<C: Ledger>(rt: &HostRuntime, case: &mut Case, copies: &mut Steps<C>) -> Result<()> {
    for line in rt.lines(rt.alloc()) {
        case.follow(rt, line?.as_str(), copies)?;
    }
    Ok(())
}

impl Case {
    /// A case of which nothing was read.
    fn new(alloc: Global) -> Result<Case, NoMemory> {
        Ok(Case {
            policy: Policy::builtin(alloc)?,
            draft: Draft::new(alloc),
            lines: Vec::new(alloc),
        })
    }

    /// Follows a line.
    fn follow<C: Ledger>(
        &mut self,
        rt: &HostRuntime,
        line: &str,
        copies: &mut Steps<C>,
    ) -> Result<()> {
        let alloc = rt.alloc();
        let (word, rest) = line.split_once(' ').unwrap_or((line, ""));
        match word {
            "#" => {
                println!(rt; "{line}")?;
                *self = Case::new(alloc)?;
                Ok(())
            }
            "under" => {
                self.policy = Policy::read(alloc, rest.as_bytes())?;
                Ok(())
            }
            "|" => Ok(self.lines.push(String::from_str(alloc, rest)?)?),
            "stores" => self.make_stores(rt, false, copies),
            "rows" => self.make_stores(rt, true, copies),
            "text" => self.try_text(rt, false, copies),
            "spoil" => self.try_text(rt, true, copies),
            _ => self.take(rt, line),
        }
    }

    /// Reads the lines of a text, or spoils each in turn, and forgets them.
    fn try_text<C: Ledger>(
        &mut self,
        rt: &HostRuntime,
        spoils: bool,
        copies: &mut Steps<C>,
    ) -> Result<()> {
        let alloc = rt.alloc();
        let lines = mem::replace(&mut self.lines, Vec::new(alloc));
        if spoils {
            print_spoiled(rt, &self.policy, lines.as_slice(), copies)
        } else {
            print_text(rt, &self.policy, lines.as_slice(), copies)
        }
    }

    /// Says whether stores are made of what was gathered, and prints their rows.
    fn make_stores<C: Ledger>(
        &mut self,
        rt: &HostRuntime,
        shown: bool,
        copies: &mut Steps<C>,
    ) -> Result<()> {
        let alloc = rt.alloc();
        let recs = mem::replace(&mut self.draft, Draft::new(alloc)).finish()?;
        match restore_stores(alloc, &recs, copies)? {
            Some(stores) => {
                println!(rt; "  stores")?;
                if shown {
                    print_rows(rt, &stores)?;
                }
                Ok(())
            }
            None => {
                println!(rt; "  none")?;
                Ok(())
            }
        }
    }

    /// Gathers a row, or one of many, and prints it with what is wrong with it.
    fn take(&mut self, rt: &HostRuntime, line: &str) -> Result<()> {
        let alloc = rt.alloc();
        let lattice = self.policy.lattice();
        let wrong = match line.strip_prefix("many ") {
            Some(rest) => add_many(alloc, &mut self.draft, rest, lattice)?,
            None => add(alloc, &mut self.draft, line, lattice)?,
        };
        if let Some(wrong) = wrong {
            println!(rt; "  {line}: {wrong}")?;
        }
        Ok(())
    }
}
