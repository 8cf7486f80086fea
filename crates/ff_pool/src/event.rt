//! What comes to a pool.
use ff_name::Level;
use ff_value::Offers;

/// What comes to a pool: an input, with what each level is offered of it, or a step of a level's
/// class.
#[derive(Debug, Drop)]
pub enum Event<'a> {
    /// An offer for each level arrives.
    Arrive(Offers<'a>),
    /// The class of a level makes one step.
    Turn(Level),
}
