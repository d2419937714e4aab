// How findings are made, emptied and handed on.
ghost use Rattle.std.specs.Prelude.{◌≡◌, IfOk};
ghost use Rattle.record.specs.Lists.{lists_of};
ghost use Rattle.findings.specs.Keeping.{kept_of, nothing};

use super::Findings;
use record::Table;
use std::alloc::{AllocError, Global};

impl Findings {
    // Nothing found, with room for all that a record may hold. No other call allocates.
    pub fn new(heap: Global) -> Result<Findings, AllocError>
        ensures { IfOk result (λ x. kept_of x ≡ nothing) }
    {
        let table = Table::new(heap)?;
        Ok(Findings { table, words: 0 })
    }

    pub fn clear(&mut self)
        ensures { kept_of self.new ≡ nothing }
    {
        self.table.clear();
        self.words = 0;
    }

    // Gives its table for another one; the number of words stays.
    pub fn exchange(&mut self, other: &mut Table)
        ensures takes { (kept_of self.new).lists ≡ lists_of other.old }
        ensures gives { lists_of other.new ≡ (kept_of self.old).lists }
        ensures words { (kept_of self.new).words ≡ (kept_of self.old).words }
    {
        std::mem::swap(&mut self.table, other);
    }
}
