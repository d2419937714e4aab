// What every refusal of the product carries: why, in which line, about which name, at which pass.
#![tactic(auto)]

pub use cause::{Cause, Layer};
pub use fault::{Fault, Span};

mod cause;
mod fault;
