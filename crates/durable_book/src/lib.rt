//! The calls that name a step: each finds the history that its keeper stands for, and puts one step of its name upon it, or says
//! why not.
//!
//! They are written once over whatever keeps steps. Each begins by settling a step in doubt, and acts at a moment that its
//! caller gives. Where the answer is Ok, the keeper stands for what it stood for with exactly that step upon it; after every
//! refusal it stands for what it stood for, and the refusal has its cause over that history. Only want of memory may come
//! at any time.
#![tactic(auto)]

mod adding;
mod begin_fault;
mod beginning;
mod close_fault;
mod closing;
mod complete_fault;
mod completing;
mod denial;
mod end_fault;
mod ending;
mod grow_fault;
mod growing;
mod hold_fault;
mod lease_fault;
mod leasing;
mod releasing;
mod renewing;
mod sweeping;
mod swept_fault;
mod ticket;

pub use adding::{add, mend};
pub use begin_fault::BeginFault;
pub use beginning::begin;
pub use close_fault::CloseFault;
pub use closing::close_one;
pub use complete_fault::CompleteFault;
pub use completing::complete;
pub use denial::Denial;
pub use end_fault::EndFault;
pub use ending::end;
pub use grow_fault::{GrowFault, grow_fault_of};
pub use growing::add_lawful;
pub use hold_fault::HoldFault;
pub use lease_fault::LeaseFault;
pub use leasing::lease;
pub use releasing::release;
pub use renewing::renew;
pub use sweeping::swept;
pub use swept_fault::SweptFault;
pub use ticket::{Ticket, abandon};
