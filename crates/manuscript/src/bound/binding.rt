// Binding bytes, and reading a manuscript's bytes again.
ghost use Rattle.std.specs.Prelude.{◌≡◌};
ghost use Rattle.manuscript.specs.Checking.{bound};
ghost use Rattle.manuscript.specs.Labelled.{Labelled};

use crate::bound::Manuscript;
use crate::checking::check;

// The manuscript of some bytes, or the empty one where the check refuses them.
#[tactic(auto, using(crate::proofs::Labelling::labelled))]
pub fn bind(bytes: &[u8]) -> Manuscript<'_>
    ensures bytes { result.text.now ≡ bound bytes.now }
    ensures labelled { Labelled result.text.now }
{
    if check(bytes).is_ok() {
        return Manuscript { text: bytes };
    }
    Manuscript { text: &[] }
}

impl<'a> Manuscript<'a> {
    pub fn text(&self) -> &'a [u8]
        ensures bytes { result.now ≡ self.now.text.now }
        ensures labelled { Labelled result.now }
    {
        self.text
    }
}
