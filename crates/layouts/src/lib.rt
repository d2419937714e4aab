// Two layouts: words that fill lines, and words in the cells of a form.
#![tactic(auto)]

pub use filler::{LineFiller, LineMark, Sheet};
pub use form::{CellMark, FixedForm, Grid};
pub use order::{filler_page, filler_reading_order, form_page, form_reading_order};
pub use place::Place;

mod filler;
mod form;
mod lines;
mod order;
mod place;
