//! Policies: which levels there are, which two levels each kind of input has, and which level each
//! domain and the user interface has.
//!
//! Floor: who may know. It knows not what a browser does with an input.
//!
//! ```text
//! let policy = Policy::read(alloc, bytes)?;
//! let lattice = policy.lattice();
//! let from = policy.presence(&input); // the levels from which on it is known that the input came
//! let known = policy.content(&input); // and those that know what it says
//! ```
#![tactic(auto)]

mod checks;
mod draft;
mod fault;
mod key;
mod kinds;
mod known;
mod law;
mod limits;
mod members;
mod naming;
mod plan;
mod policy;
mod printing;
mod shapes;
mod version;

pub use fault::PolicyFault;
pub use ff_name::NoMemory;
pub use law::{
    bytes_read_as_one_policy_or_fault, members_stand_in_byte_order,
    the_first_fault_of_the_members_decides, the_first_key_is_the_least, the_longest_key_is_taken,
};
pub use limits::{MOST_FUEL, MOST_POLICY_BYTES, USUAL_FUEL};
pub use policy::Policy;
