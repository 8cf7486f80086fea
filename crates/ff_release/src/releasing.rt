//! Copies that take what rules offer.
ghost use Rattle.std.specs.Prelude.{◌<◌};

use crate::NoMemory;
use ff_contract::Steps;
use ff_policy::Policy;
use ff_pool::{Pool, Reactor};
use ff_rules::Release;
use ff_session::take_offers;
use ff_stream::Taker;
use ff_value::Input;
use std::alloc::Global;
use std::marker::PhantomData;
use std::sync::ledger::Ledger;

/// A copy of the browser for each level takes what the rules that are left offer to the level;
/// levels that were offered the same so far share theirs.
#[derive(Drop)]
pub(crate) struct Releasing<'a, B: Reactor> {
    /// It says what each level sees, and which level each line is at.
    pub(crate) policy: &'a Policy,
    /// How many steps a class makes before the next one has its turn, from 1 on.
    pub(crate) slice: u32,
    /// Which kind of browser.
    pub(crate) kind: PhantomData<B>,
}

/// Where a released run stands between two inputs.
#[derive(Drop)]
pub(crate) struct ReleasedCopies<B: Reactor> {
    /// The copies.
    pub(crate) pool: Pool<B>,
    /// What is left of the rules.
    pub(crate) release: Release,
}

impl<B: Reactor> Taker for Releasing<'_, B> {
    ghost use Rattle.std.specs.Prelude.{◌<◌, List};
    ghost use Rattle.ff_trace.specs.Lines.{IsInputOf};
    ghost use Rattle.ff_route.specs.declared.rule.Rule.{Rule};
    ghost use Rattle.ff_release.specs.Releasing.{release_entry, entry_turns, IsReleasedAt};

    type Item = Input;

    type State = ReleasedCopies<B>;

    ghost Start = { List Rule };

    ghost accepts = { λ taker input. IsInputOf taker.policy.now.order input };

    ghost entry = { λ taker rules. release_entry taker.policy.now rules };

    ghost turns_due = { λ taker rules. entry_turns taker.policy.now rules };

    ghost is_at = { λ taker rules state inputs. IsReleasedAt taker.policy.now rules state.pool
        state.release inputs × (0 < taker.slice) };

    ghost copies_none = { λ taker. ⊥ };

    fn take<C: Ledger, L: Ledger>(
        &self,
        alloc: Global,
        state: &mut ReleasedCopies<B>,
        item: &Input,
        text: &mut Vec<u8>,
        copies: &mut Steps<C>,
        turns: &mut Steps<L>,
    ) -> Result<(), NoMemory> {
        let offers = state.release.offers(alloc, self.policy, item)?;
        take_offers(
            self.policy,
            self.slice,
            &mut state.pool,
            &offers,
            text,
            copies,
            turns,
        )
    }
}
