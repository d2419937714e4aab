// Walking a manuscript from the opening place.
ghost use Rattle.std.specs.Prelude.{◌≡◌};
ghost use Rattle.compose.specs.Playing.{play, ended};
ghost use Rattle.findings.specs.Keeping.{kept_of, nothing, finding};
ghost use Rattle.record.specs.Lists.{lists_of};
ghost use Rattle.setting.specs.Typesetting.{plays};
ghost use Rattle.typeset.specs.Items.{items};
ghost use Rattle.typeset.specs.Script.{script};

use crate::task::{Spare, Task};
use faults::Fault;
use layout::Layout;
use setting::Typesetter;
use typeset::walk;

// Walks the manuscript from the opening place, with nothing found before.
pub fn walk_through<L: Layout>(task: Task, layout: &mut L, spare: &mut Spare) -> Result<(), Fault>
    ensures ends { ended (record { place = L.Layout.meaning.place layout.new; kept = kept_of spare.new.findings }) result ≡ play (plays L.Layout.meaning finding (L.Layout.meaning.settings layout.old) tt task.entry.pass) (record { place = L.Layout.meaning.opening (L.Layout.meaning.settings layout.old); kept = nothing }) (script task.entry.telling.style (lists_of task.entry.telling.old.now) (items task.entry.manuscript.text.now)) }
    ensures settings { L.Layout.meaning.settings layout.new ≡ L.Layout.meaning.settings layout.old }
{
    layout.rewind();
    spare.findings.clear();
    walk(
        task.manuscript,
        task.telling,
        &mut spare.numerals,
        &mut Typesetter {
            layout,
            keeper: &mut spare.findings,
            pass: task.pass,
        },
    )
}
