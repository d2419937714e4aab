// The walk of a manuscript on a compositor.
ghost use Rattle.compose.specs.Playing.{Plays};
ghost use Rattle.record.specs.Lists.{lists_of};
ghost use Rattle.typeset.specs.Items.{items};
ghost use Rattle.typeset.specs.Script.{script};

use crate::teller::Teller;
use crate::telling::{NumeralBuffer, Telling};
use compose::Compositor;
use faults::Fault;
use manuscript::Manuscript;

// Plays the script of a manuscript on a compositor, up to the first refusal.
pub fn walk<C: Compositor>(
    manuscript: Manuscript,
    telling: Telling,
    numerals: &mut NumeralBuffer,
    compositor: &mut C,
) -> Result<(), Fault>
    ensures { Plays C.playing compositor.old (script telling.entry.style (lists_of telling.entry.old.now) (items manuscript.entry.text.now)) compositor.new result }
{
    let mut teller = Teller {
        manuscript,
        telling,
        numerals,
        compositor,
    };
    teller.walk_lines()
}
