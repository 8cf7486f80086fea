//! What the levels are offered of an input.
ghost use Rattle.std.specs.Prelude.{◌≡◌, ◌<◌, None, length, slice_index_or};
ghost use Rattle.std.specs.Option.{option_copied, option_eq};
ghost use Rattle.ff_value.specs.Offers.{offered, all_offered};
ghost use Rattle.ff_value.specs.Same.{same_input};

use crate::input::Input;
use std::marker::Model;

/// What a level is offered of an input.
#[derive(Debug)]
pub enum Offer {
    /// Nothing.
    Nothing,
    /// The input itself, which is lent and not copied.
    Whole,
    /// Another input in its place.
    Other(Input),
}

// Written out, so that the proof of a caller sees one call and not a case for each variant.
impl Drop for Offer {
    fn drop(self) {
        match self {
            Offer::Nothing => (),
            Offer::Whole => (),
            Offer::Other(_input) => (),
        }
    }
}

/// What each level is offered of one input, in the order of the levels: contracts see the list. The
/// input is lent, so that a level that is offered all of it costs no copy.
#[derive(Debug, Drop)]
pub struct Offers<'a> {
    input: &'a Input,
    offers: Vec<Offer>,
}

impl<'a> Model for Offers<'a> {
    ghost use Rattle.std.specs.Prelude.{List, Option};
    ghost use Rattle.std.specs.Coded.{coded_list, coded_option};
    ghost use Rattle.ff_value.specs.declared.input.Input.{Input};
    ghost use Rattle.ff_value.specs.contracts.input.Input.{the_row};
    ghost use Rattle.ff_value.specs.Offers.{all_offered};

    ghost Value = { List (Option Input) };

    ghost coded = { coded_list (coded_option the_row.coded) };

    ghost view = { λ o. all_offered o.input.now o.offers.items };
}

impl<'a> Offers<'a> {
    /// These offers of an input, one for each level.
    pub fn of(input: &'a Input, offers: Vec<Offer>) -> Offers<'a>
        ensures { result ≡ all_offered input.now offers.items }
    {
        Offers { input, offers }
    }

    /// How many levels there are.
    pub fn len(&self) -> usize
        ensures { result ≡ length self.now }
    {
        self.offers.len()
    }

    /// What a level is offered, lent.
    pub fn to(&self, l: usize) -> Option<&Input>
        requires { l < length self.now }
        ensures { option_copied result ≡ slice_index_or self.now l None }
    {
        match &self.offers[l] {
            Offer::Nothing => None,
            Offer::Whole => Some(self.input),
            Offer::Other(other) => Some(other),
        }
    }

    /// Whether two levels are offered the same.
    pub fn same(&self, k: usize, l: usize) -> bool
        requires first { k < length self.now }
        requires second { l < length self.now }
        ensures { result ≡ option_eq same_input (slice_index_or self.now k None)
            (slice_index_or self.now l None) }
    {
        same_offer(self.input, &self.offers[k], &self.offers[l])
    }
}

/// Whether two offers of an input are the same, with the tags of what is offered. An input that is
/// offered twice as it is isn't looked at.
pub fn same_offer(input: &Input, a: &Offer, b: &Offer) -> bool
    ensures { result ≡ option_eq same_input (offered input.now a.now) (offered input.now b.now) }
{
    match a {
        Offer::Nothing => match b {
            Offer::Nothing => true,
            _ => false,
        },
        Offer::Whole => match b {
            Offer::Nothing => false,
            Offer::Whole => true,
            Offer::Other(other) => same_input(input, other),
        },
        Offer::Other(one) => match b {
            Offer::Nothing => false,
            Offer::Whole => same_input(one, input),
            Offer::Other(other) => same_input(one, other),
        },
    }
}

/// Whether two inputs are equal, their tags too.
fn same_input(x: &Input, y: &Input) -> bool
    ensures { result ≡ same_input x.now y.now }
{
    *x == *y
}
