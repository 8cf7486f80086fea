ghost use Rattle.std.specs.Prelude.{◌≡◌, ◌≢◌, ◌<◌, IfOk, IfErr, Ok, Err};
ghost use Rattle.ff_contract.specs.Answering.{Answers};
ghost use Rattle.ff_lattice.specs.Levels.{IsLatticeOf};
ghost use Rattle.ff_lattice.specs.Order.{size, IsOrder, IsTag};
ghost use Rattle.ff_policy.specs.Assignment.{Assignment, IsDraft, IsAssignment, act_level, with_tag, builtin};
ghost use Rattle.ff_policy.specs.Assignment as spec;
ghost use Rattle.ff_policy.specs.Reading.{IsLevelsFault, Checks, Names, Orders, Says, IsPolicyOf, IsFault};
ghost use Rattle.serde_json.specs.View.{view};

use crate::draft::Draft;
use crate::key::{Key, level_of};
use crate::kinds::Kinds;
use crate::limits::USUAL_FUEL;
use crate::members::{plan_in, value_of};
use crate::naming::assigned;
use crate::plan::Plan;
use crate::{NoMemory, PolicyFault};
use ff_lattice::{Lattice, LatticeFault};
use ff_name::{Domain, Level, Text, Worded};
use ff_value::{Act, Input, Out};
use serde_json::Value;
use std::alloc::Global;
use std::marker::Model;

/// Which levels there are, which two levels each kind of input has, and which level each domain and
/// the user interface has.
#[derive(Debug)]
pub struct Policy {
    pub(crate) lattice: Lattice,
    pub(crate) ui: Level,
    pub(crate) other: Level,
    pub(crate) domains: Vec<Key>,
    pub(crate) kinds: Kinds,
    pub(crate) fuel: u32,
}

// Written out, so that the proof of a caller sees one call and not a part for each field.
impl Drop for Policy {
    fn drop(self) {
        let Policy {
            lattice: _lattice,
            ui: _,
            other: _,
            domains: _domains,
            kinds: _kinds,
            fuel: _,
        } = self;
    }
}

impl Model for Policy {
    ghost use Rattle.ff_policy.specs.Assignment.{Assignment, IsAssignment};

    ghost Value = { Assignment };

    ghost view = { λ s. record {
      order = s.lattice;
      ui = s.ui.0;
      other = s.other.0;
      domains =
          s.domains.items;
      kinds = s.kinds;
      fuel = s.fuel;
    } };

    ghost invariant = { λ s. IsAssignment (record {
      order = s.lattice;
      ui = s.ui.0;
      other = s.other.0;
      domains = s.domains.items;
      kinds =
          s.kinds;
      fuel = s.fuel;
    }) };
}

impl Policy {
    /// The levels `L` and `H` with `L` below `H`. The user interface is at `H`, every domain and
    /// every kind of input at `L`, and an input has a fuel of 10,000.
    pub fn builtin(alloc: Global) -> Result<Policy, NoMemory>
        ensures { IfOk result (λ policy. policy ≡ builtin) }
    {
        let lattice = Lattice::two(alloc)?;
        Ok(Policy {
            lattice,
            ui: Level(1),
            other: Level(0),
            domains: Vec::new(alloc),
            kinds: Kinds::all(Level(0)),
            fuel: USUAL_FUEL as u32,
        })
    }

    /// The policy that these bytes give as JSON. Its refusals, in their order: over 65,536 bytes;
    /// no JSON; no object of version 1 or 2; another member, another kind of input, or another
    /// member of a kind; a member that is missing or has another shape; levels that are no lattice;
    /// a name that is no level's; a key that is neither a domain nor a dot followed by one; a fuel
    /// of 0 or over 1,000,000; a kind whose presence isn't at or below its content. Want of memory
    /// may come in place of any of these.
    pub fn read(alloc: Global, bytes: &[u8]) -> Result<Policy, PolicyFault>
        ensures found { IfOk result (IsPolicyOf bytes.now) }
        ensures fault { IfErr result (λ fault. fault ≢ PolicyFault.NoMemory
            → IsFault bytes.now fault) }
        ensures only { (policy : Assignment) → IsPolicyOf bytes.now policy
            → Answers result (Ok policy) (Err PolicyFault.NoMemory) }
        ensures exact { (fault : PolicyFault) → IsFault bytes.now fault
            → Answers result (Err fault) (Err PolicyFault.NoMemory) }
    {
        Policy::first_read(alloc, bytes)
    }

    /// The policy or the first fault. It stands apart for the prover alone: `Policy::read` says
    /// more of its answer.
    fn first_read(alloc: Global, bytes: &[u8]) -> Result<Policy, PolicyFault>
        ensures found { IfOk result (IsPolicyOf bytes.now) }
        ensures fault { IfErr result (λ fault. fault ≢ PolicyFault.NoMemory
            → IsFault bytes.now fault) }
    {
        let value = value_of(alloc, bytes)?;
        Policy::of_value(alloc, &value)
    }

    /// The policy that a JSON value says.
    fn of_value(alloc: Global, value: &Value) -> Result<Policy, PolicyFault>
        ensures found { IfOk result (λ policy. Says (view value.now) (Ok policy)) }
        ensures fault { IfErr result (λ fault. fault ≢ PolicyFault.NoMemory
            → Says (view value.now) (Err fault)) }
    {
        let plan = plan_in(alloc, value)?;
        Policy::of_plan(alloc, &plan)
    }

    /// The policy of a plan.
    fn of_plan(alloc: Global, plan: &Plan) -> Result<Policy, PolicyFault>
        ensures found { IfOk result (λ policy. Orders plan.now (Ok policy)) }
        ensures fault { IfErr result (λ fault. fault ≢ PolicyFault.NoMemory
            → Orders plan.now (Err fault)) }
    {
        let lattice = lattice_of(alloc, plan)?;
        Policy::of_names(alloc, lattice, plan)
    }

    /// The policy of a plan over its lattice.
    fn of_names(alloc: Global, lattice: Lattice, plan: &Plan) -> Result<Policy, PolicyFault>
        requires { IsOrder lattice }
        ensures found { IfOk result (λ policy. Names lattice plan.now (Ok policy)) }
        ensures fault { IfErr result (λ fault. fault ≢ PolicyFault.NoMemory
            → Names lattice plan.now (Err fault)) }
    {
        let draft = assigned(alloc, lattice, plan)?;
        Policy::of_draft(alloc, draft)
    }

    /// The policy of a draft.
    fn of_draft(alloc: Global, draft: Draft) -> Result<Policy, PolicyFault>
        requires { IsDraft draft }
        ensures found { IfOk result (λ policy. Checks draft (Ok policy)) }
        ensures fault { IfErr result (λ fault. fault ≢ PolicyFault.NoMemory
            → Checks draft (Err fault)) }
    {
        draft.check_keys()?;
        if !draft.has_fuel() {
            return Err(PolicyFault::BadFuel);
        }
        match draft.first_unordered() {
            None => Ok(Policy::whole(draft)),
            Some(kind) => Err(PolicyFault::ContentBelowPresence(Text::of_str(alloc, kind.word())?)),
        }
    }

    /// The draft as a policy.
    fn whole(draft: Draft) -> Policy
        requires { IsAssignment draft }
        ensures { result ≡ draft }
    {
        Policy {
            lattice: draft.lattice,
            ui: draft.ui,
            other: draft.other,
            domains: draft.domains,
            kinds: draft.kinds,
            fuel: draft.fuel as u32,
        }
    }

    /// The levels and their order.
    pub fn lattice(&self) -> &Lattice
        ensures value { result.now ≡ self.now.order }
        ensures valid { IsAssignment self.now }
    {
        &self.lattice
    }

    /// The fuel of an input: 1 to 1,000,000.
    pub fn fuel(&self) -> u32
        ensures value { result ≡ self.now.fuel }
        ensures valid { IsAssignment self.now }
    {
        self.fuel
    }

    /// The level of a domain: that of its own key, else of the longest key that begins with a dot
    /// and that the domain ends with, else that of all other domains.
    #[tactic(auto, using(crate::proofs::Within::domain_level_within))]
    pub fn domain_level(&self, domain: &Domain) -> Level
        ensures value { result.0 ≡ spec.domain_level self.now domain.now }
        ensures within { result.0 < size self.now.order }
    {
        self.level_for(domain)
    }

    #[tactic(auto, unfolding(crate::specs::Assignment::domain_level))]
    fn level_for(&self, domain: &Domain) -> Level
        ensures value { result.0 ≡ spec.domain_level self.now domain.now }
        ensures valid { IsAssignment self.now }
    {
        level_of(&self.domains, domain.text().as_bytes(), self.other)
    }

    /// The level from which on it is known that there was this input: the presence of its kind,
    /// joined with its tag, and for a reply with its domain's level.
    #[tactic(auto, unfolding(crate::specs::Assignment::presence))]
    pub fn presence(&self, input: &Input) -> Level
        requires { IsTag self.now.order input.now.tag }
        ensures value { result.0 ≡ spec.presence self.now input.now }
        ensures within { result.0 < size self.now.order }
    {
        self.raised(input, self.kinds.of(input.act.kind()).presence)
    }

    /// The level from which on it is known what the input says: the content of its kind, joined
    /// with its tag, and for a reply with its domain's level.
    #[tactic(auto, unfolding(crate::specs::Assignment::content))]
    pub fn content(&self, input: &Input) -> Level
        requires { IsTag self.now.order input.now.tag }
        ensures value { result.0 ≡ spec.content self.now input.now }
        ensures within { result.0 < size self.now.order }
    {
        self.raised(input, self.kinds.of(input.act.kind()).content)
    }

    /// A level, joined with the input's tag, and for a reply with its domain's level.
    fn raised(&self, input: &Input, level: Level) -> Level
        requires tag { IsTag self.now.order input.now.tag }
        requires level { level.0 < size self.now.order }
        ensures value { result.0 ≡ with_tag self.now.order input.now.tag
            (act_level self.now input.now.act level.0) }
        ensures within { result.0 < size self.now.order }
    {
        let level = self.act_level(&input.act, level);
        match input.tag {
            None => level,
            Some(tag) => self.lattice.join(level, tag),
        }
    }

    /// A level, for a reply joined with its domain's.
    fn act_level(&self, act: &Act, level: Level) -> Level
        requires { level.0 < size self.now.order }
        ensures value { result.0 ≡ act_level self.now act.now level.0 }
        ensures within { result.0 < size self.now.order }
    {
        match act {
            Act::Replies(domain, _, _) => self.lattice.join(level, self.domain_level(domain)),
            Act::Opens(_)
            | Act::Goes(_, _)
            | Act::Links(_, _)
            | Act::Closes(_)
            | Act::Types(_, _, _)
            | Act::Clicks(_, _) => level,
        }
    }

    /// The level of an output: a request has its domain's, and all else that of the user interface.
    #[tactic(auto, using(crate::proofs::Within::level_out_within), unfolding(crate::specs::Assignment::level_out))]
    pub fn level_out(&self, out: &Out) -> Level
        ensures value { result.0 ≡ spec.level_out self.now out.now }
        ensures within { result.0 < size self.now.order }
    {
        match out {
            Out::Send(domain, _, _, _) => self.domain_level(domain),
            Out::Opened
            | Out::Closed(_)
            | Out::Loaded(_, _, _)
            | Out::Updated(_, _)
            | Out::Error(_, _)
            | Out::Stopped => self.ui,
        }
    }
}

/// The lattice of a plan's levels.
fn lattice_of(alloc: Global, plan: &Plan) -> Result<Lattice, PolicyFault>
    ensures found { IfOk result (IsLatticeOf plan.now.levels plan.now.below) }
    ensures fault { IfErr result (λ fault. fault ≢ PolicyFault.NoMemory
        → IsLevelsFault plan.now fault) }
{
    match Lattice::build(alloc, &plan.levels, &plan.below) {
        Ok(lattice) => Ok(lattice),
        Err(fault) => Err(of_levels(fault)),
    }
}

/// The fault of levels as that of a policy.
fn of_levels(fault: LatticeFault) -> PolicyFault
    ensures { result ≢ PolicyFault.NoMemory → (fault ≢ LatticeFault.NoMemory)
        × (result ≡ PolicyFault.Levels fault) }
{
    match &fault {
        LatticeFault::NoMemory => PolicyFault::NoMemory,
        _ => PolicyFault::Levels(fault),
    }
}
