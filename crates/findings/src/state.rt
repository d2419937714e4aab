// The table of entries found so far, and the number of words.
use record::Table;

mod keeper;
mod makes;
mod reads;

// No `impl Model`: a keeper is seen through `Keeping`, of which `kept_of`, the view that a model would have, is a part already.
#[derive(Drop)]
pub struct Findings {
    table: Table,
    words: usize,
}
