// Record lines: a record saved as lines of hexadecimal digits, and loaded again.
#![tactic(auto)]

pub use error::LoadError;
pub use reads::load;
pub use saves::{save, save_table, saved_length};

mod decode;
mod error;
mod frames;
mod lines;
mod positions;
mod reads;
mod saves;
mod steps;
mod writes;
