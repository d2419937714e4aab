// What findings tell.
ghost use Rattle.std.specs.Prelude.{◌≡◌};
ghost use Rattle.record.specs.Lists.{lists_of};
ghost use Rattle.findings.specs.Keeping.{kept_of};

use super::Findings;
use record::Table;

impl Findings {
    pub fn table(&self) -> &Table
        ensures { lists_of result.now ≡ (kept_of self.now).lists }
    {
        &self.table
    }

    pub fn words(&self) -> usize
        ensures { result ≡ (kept_of self.now).words }
    {
        self.words
    }
}
