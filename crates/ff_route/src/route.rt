ghost use Rattle.std.specs.Prelude.{◌≡◌, ◌<◌, ◌↔◌, [], true, None, Ok, IfOk, IsTrue};
ghost use Rattle.ff_lattice.specs.Order.{leq, size};
ghost use Rattle.ff_value.specs.Offers.{offered};
ghost use Rattle.ff_value.specs.declared.input.Act.TheVariants.{Replies};
ghost use Rattle.ff_value.specs.declared.reply.Resp.TheVariants.{Data};
ghost use Rattle.ff_policy.specs.Assignment.{content, level_out, presence};
ghost use Rattle.ff_route.specs.Route as spec;
ghost use Rattle.ff_route.specs.Route.{IsTagged, sees, mask, mask_act};

use crate::NoMemory;
use ff_name::{Domain, Level, Text, Url};
use ff_policy::Policy;
use ff_value::{Act, Cookies, Input, Offer, Offers, Out, Resp};
use std::alloc::Global;

/// What is left of an input for a level that may know that there was one and not what it says: its
/// kind, its tag, its numbers and its domain. A text is empty, an address is `about:blank`, and a
/// response has no cookies and an empty text.
pub fn mask(alloc: Global, input: &Input) -> Result<Input, NoMemory>
    ensures { IfOk result (λ masked. masked ≡ mask input.now) }
{
    Ok(Input {
        tag: input.tag,
        act: mask_act(alloc, &input.act)?,
    })
}

fn mask_act(alloc: Global, act: &Act) -> Result<Act, NoMemory>
    ensures { IfOk result (λ masked. masked ≡ mask_act act.now) }
{
    match act {
        Act::Opens(_) => Ok(Act::Opens(Url::Blank)),
        Act::Goes(win, _) => Ok(Act::Goes(*win, Url::Blank)),
        Act::Links(win, link) => Ok(Act::Links(*win, *link)),
        Act::Closes(win) => Ok(Act::Closes(*win)),
        Act::Types(win, field, _) => Ok(Act::Types(*win, *field, Text::of_str(alloc, "")?)),
        Act::Clicks(win, button) => Ok(Act::Clicks(*win, *button)),
        Act::Replies(domain, request, _) => masked_reply(alloc, domain, *request),
    }
}

/// A reply of this domain that holds nothing.
fn masked_reply(alloc: Global, domain: &Domain, request: u32) -> Result<Act, NoMemory>
    ensures { IfOk result (λ masked. masked ≡ Replies domain.now request (Data [] [])) }
{
    Ok(Act::Replies(domain.copy()?, request, no_response(alloc)?))
}

/// A response that holds nothing.
fn no_response(alloc: Global) -> Result<Resp, NoMemory>
    ensures { IfOk result (λ resp. resp ≡ Data [] []) }
{
    let cookies = Cookies::from_vec(alloc, Vec::new(alloc))?;
    Ok(Resp::Data(cookies, Text::of_str(alloc, "")?))
}

/// What the level sees of an input: the input, its tag too, where the input's content is at or
/// below that level; else the masked input where its presence is; and else nothing. Its one refusal
/// is want of memory, where the masked input is seen.
#[tactic(auto, unfolding(crate::specs::Route::sees))]
pub fn sees(alloc: Global, policy: &Policy, l: Level, input: &Input) -> Result<Offer, NoMemory>
    requires level { l.0 < size policy.now.order }
    requires tag { IsTagged policy.now.order input.now }
    ensures value { IfOk result (λ seen. offered input.now seen ≡ sees policy.now l.0 input.now) }
    // What isn't seen, and what is seen whole, is answered without memory.
    ensures unseen { sees policy.now l.0 input.now ≡ None → result ≡ Ok Offer.Nothing }
    ensures whole { leq policy.now.order (content policy.now input.now) l.0 ≡ true
        → result ≡ Ok Offer.Whole }
{
    let whole_from = policy.content(input);
    let masked_from = policy.presence(input);
    seen_at(alloc, policy, l, input, whole_from, masked_from)
}

/// What a level sees of an input that is seen whole from one level on, and masked from another.
#[tactic(auto, unfolding(crate::specs::Route::sees))]
fn seen_at(
    alloc: Global,
    policy: &Policy,
    l: Level,
    input: &Input,
    whole_from: Level,
    masked_from: Level,
) -> Result<Offer, NoMemory>
    requires level { l.0 < size policy.now.order }
    requires whole_from { whole_from.0 ≡ content policy.now input.now }
    requires masked_from { masked_from.0 ≡ presence policy.now input.now }
    requires whole_within { whole_from.0 < size policy.now.order }
    requires masked_within { masked_from.0 < size policy.now.order }
    ensures value { IfOk result (λ seen. offered input.now seen ≡ sees policy.now l.0 input.now) }
    ensures unseen { sees policy.now l.0 input.now ≡ None → result ≡ Ok Offer.Nothing }
    ensures whole { leq policy.now.order (content policy.now input.now) l.0 ≡ true
        → result ≡ Ok Offer.Whole }
{
    if policy.lattice().leq(whole_from, l) {
        return Ok(Offer::Whole);
    }
    if policy.lattice().leq(masked_from, l) {
        return Ok(Offer::Other(mask(alloc, input)?));
    }
    Ok(Offer::Nothing)
}

/// What each level sees of an input, in the order of the levels. The input is lent.
#[tactic(auto, using(crate::proofs::Fits::offers_more))]
pub fn offers<'a>(alloc: Global, policy: &Policy, input: &'a Input) -> Result<Offers<'a>, NoMemory>
    requires { IsTagged policy.now.order input.now }
    ensures { IfOk result (λ offers. offers ≡ spec.offers policy.now input.now) }
{
    let whole_from = policy.content(input);
    let masked_from = policy.presence(input);
    let mut offers = Vec::new(alloc);
    for number in 0..policy.lattice().size() {
        let l = Level(number);
        offers.push(seen_at(alloc, policy, l, input, whole_from, masked_from)?)?;
    }
    Ok(Offers::of(input, offers))
}

/// Whether the level's copy lets this output out: whether it is of that level.
pub fn keep(policy: &Policy, l: Level, out: &Out) -> bool
    ensures { IsTrue result ↔ (level_out policy.now out.now ≡ l.0) }
{
    policy.level_out(out).0 == l.0
}
