//! The records of one browser's stores, as they are gathered from rows.
ghost use Rattle.std.specs.Prelude.{◌≡◌, map, IfOk};
ghost use Rattle.ff_saved_rows.specs.Drafted.{node_of, so_far, recs_of};
ghost use Rattle.ff_saved_rows.specs.Drafting.{no_recs, Adds};
ghost use Rattle.ff_saved_rows.specs.declared.row.Row.TheVariants as row;

use crate::NoMemory;
use crate::row::Row;
use ff_machine::{Entry, Shape};
use ff_records::{
    ActRec, ActRecs, AskRec, AskRecs, CookieRec, CookieRecs, NodeRec, NodeRecs, PageRec, PageRecs,
    Variable, WinIds, WinRec, WinRecs,
};
use ff_shared::{OwnedList, SharedList};
use ff_value::{Code, Ids};
use std::alloc::Global;
use std::mem;

/// A node whose handlers are gathered.
#[derive(Debug, Drop)]
struct NodeDraft {
    shape: Shape,
    on: Vec<Code>,
    kids: Ids,
}

impl NodeDraft {
    fn finish(self, alloc: Global) -> Result<NodeRec, NoMemory>
        ensures { IfOk result (λ rec. rec ≡ node_of self) }
    {
        let NodeDraft { shape, on, kids } = self;
        Ok(NodeRec {
            shape,
            on: SharedList::from_vec(alloc, on)?,
            kids,
        })
    }
}

/// Records of one browser's stores, as far as their rows were read. Rows of another order than that
/// in which they are printed are gathered too, where there is something to which they belong.
#[derive(Debug, Drop)]
pub struct Draft {
    alloc: Global,
    mass: u64,
    acts: Vec<ActRec>,
    nodes: Vec<NodeDraft>,
    pages: Vec<PageRec>,
    wins: Vec<WinRec>,
    opened: WinIds,
    cookies: Vec<CookieRec>,
    asks: Vec<AskRec>,
}

/// The records of one browser's stores.
#[derive(Debug, Drop)]
pub struct Drafted {
    /// The mass of the stores, in bytes.
    pub mass: u64,
    /// The activations by their numbers.
    pub acts: ActRecs,
    /// The nodes by their numbers.
    pub nodes: NodeRecs,
    /// The pages by their numbers.
    pub pages: PageRecs,
    /// The windows by their numbers, closed ones too.
    pub wins: WinRecs,
    /// The open windows in order of opening.
    pub opened: WinIds,
    /// The cookies by domain, then by key.
    pub cookies: CookieRecs,
    /// The pending requests by domain, those of a domain the oldest first.
    pub asks: AskRecs,
}

impl Draft {
    /// Nothing was read. It takes no memory.
    pub fn new(alloc: Global) -> Draft
        ensures { so_far result ≡ no_recs }
    {
        Draft {
            alloc,
            mass: 0,
            acts: Vec::new(alloc),
            nodes: Vec::new(alloc),
            pages: Vec::new(alloc),
            wins: Vec::new(alloc),
            opened: OwnedList::from_vec(Vec::new(alloc)),
            cookies: Vec::new(alloc),
            asks: Vec::new(alloc),
        }
    }

    /// One row more. False where it belongs to nothing that was read, and where it is none of one
    /// browser's rows. Its one refusal is want of memory; what was gathered is of no use then.
    pub fn add(&mut self, row: Row) -> Result<bool, NoMemory>
        ensures { IfOk result (λ found. Adds (so_far self.old) row found (so_far self.new)) }
    {
        row.add_to(self)
    }

    fn add_var(&mut self, var: Variable) -> Result<bool, NoMemory>
        ensures { IfOk result (λ found. Adds (so_far self.old) (row.Var var) found
            (so_far self.new)) }
    {
        match self.acts.pop() {
            Some(mut act) => {
                let mut vars = mem::replace(
                    &mut act.vars,
                    OwnedList::from_vec(Vec::new(self.alloc)),
                ).into_vec();
                vars.push(var)?;
                act.vars = OwnedList::from_vec(vars);
                self.acts.push(act)?;
                Ok(true)
            }
            None => Ok(false),
        }
    }

    fn add_node(&mut self, shape: Shape) -> Result<bool, NoMemory>
        ensures { IfOk result (λ found. Adds (so_far self.old) (row.Node shape) found
            (so_far self.new)) }
    {
        let kids = SharedList::from_vec(self.alloc, Vec::new(self.alloc))?;
        self.nodes.push(NodeDraft {
            shape,
            on: Vec::new(self.alloc),
            kids,
        })?;
        Ok(true)
    }

    fn add_on(&mut self, code: Code) -> Result<bool, NoMemory>
        ensures { IfOk result (λ found. Adds (so_far self.old) (row.On code) found
            (so_far self.new)) }
    {
        match self.nodes.pop() {
            Some(mut node) => {
                node.on.push(code)?;
                self.nodes.push(node)?;
                Ok(true)
            }
            None => Ok(false),
        }
    }

    fn add_kids(&mut self, kids: Ids) -> Result<bool, NoMemory>
        ensures { IfOk result (λ found. Adds (so_far self.old) (row.Kids kids) found
            (so_far self.new)) }
    {
        match self.nodes.pop() {
            Some(mut node) => {
                node.kids = kids;
                self.nodes.push(node)?;
                Ok(true)
            }
            None => Ok(false),
        }
    }

    fn add_entry(&mut self, entry: Entry) -> Result<bool, NoMemory>
        ensures { IfOk result (λ found. Adds (so_far self.old) (row.Queued entry) found
            (so_far self.new)) }
    {
        match self.pages.pop() {
            Some(mut page) => {
                let mut queue = mem::replace(
                    &mut page.queue,
                    OwnedList::from_vec(Vec::new(self.alloc)),
                ).into_vec();
                queue.push(entry)?;
                page.queue = OwnedList::from_vec(queue);
                self.pages.push(page)?;
                Ok(true)
            }
            None => Ok(false),
        }
    }

    /// The records that were gathered.
    pub fn finish(self) -> Result<Drafted, NoMemory>
        ensures { IfOk result (λ recs. recs_of recs ≡ so_far self) }
    {
        let Draft {
            alloc,
            mass,
            acts,
            nodes,
            pages,
            wins,
            opened,
            cookies,
            asks,
        } = self;
        Ok(Drafted {
            mass,
            acts: OwnedList::from_vec(acts),
            nodes: finish_nodes(alloc, nodes)?,
            pages: OwnedList::from_vec(pages),
            wins: OwnedList::from_vec(wins),
            opened,
            cookies: OwnedList::from_vec(cookies),
            asks: OwnedList::from_vec(asks),
        })
    }
}

fn finish_nodes(alloc: Global, drafts: Vec<NodeDraft>) -> Result<NodeRecs, NoMemory>
    ensures { IfOk result (λ recs. recs ≡ map node_of drafts.items) }
{
    let mut recs = Vec::new(alloc);
    for draft in drafts {
        recs.push(draft.finish(alloc)?)?;
    }
    Ok(OwnedList::from_vec(recs))
}

impl Row {
    /// Adds the row to what was gathered.
    fn add_to(self, draft: &mut Draft) -> Result<bool, NoMemory>
        ensures { IfOk result (λ found. Adds (so_far draft.old) self found (so_far draft.new)) }
    {
        match self {
            Row::Mass(mass) => {
                draft.mass = mass;
                Ok(true)
            }
            Row::Act(parent) => {
                let vars = OwnedList::from_vec(Vec::new(draft.alloc));
                draft.acts.push(ActRec { parent, vars })?;
                Ok(true)
            }
            Row::Var(var) => draft.add_var(var),
            Row::Node(shape) => draft.add_node(shape),
            Row::On(code) => draft.add_on(code),
            Row::Kids(kids) => draft.add_kids(kids),
            Row::Page(url, win, root, act, next) => {
                let queue = OwnedList::from_vec(Vec::new(draft.alloc));
                draft.pages.push(PageRec {
                    url,
                    win,
                    root,
                    act,
                    next,
                    queue,
                })?;
                Ok(true)
            }
            Row::Queued(entry) => draft.add_entry(entry),
            Row::Win(rec) => {
                draft.wins.push(rec)?;
                Ok(true)
            }
            Row::Open(wins) => {
                draft.opened = wins;
                Ok(true)
            }
            Row::Cookie(rec) => {
                draft.cookies.push(rec)?;
                Ok(true)
            }
            Row::Ask(rec) => {
                draft.asks.push(rec)?;
                Ok(true)
            }
            Row::Head => Ok(false),
            Row::Policy(_) => Ok(false),
            Row::Class(_) => Ok(false),
            Row::End => Ok(false),
        }
    }
}
