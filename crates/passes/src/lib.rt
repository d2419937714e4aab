// One pass: a manuscript is walked on a layout, and what is found of its words is the new record.
#![tactic(auto)]

pub use making::make_pass;
pub use task::{Spare, Task};

mod making;
mod task;
mod walking;
