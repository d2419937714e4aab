// Making a pass.
ghost use Rattle.std.specs.Prelude.{◌≡◌};
ghost use Rattle.findings.specs.Keeping.{kept_of};
ghost use Rattle.findings.specs.Laws.{told};
ghost use Rattle.layout.specs.Calls.{Rewound};
ghost use Rattle.record.specs.Lists.{lists_of};
ghost use Rattle.passes.specs.Entries.{EntriesMade};
ghost use Rattle.passes.specs.Next.{next, Makes, ApartMade};

use crate::task::{Spare, Task};
use crate::walking::walk_through;
use faults::Fault;
use findings::findings_hold;
use layout::Layout;

// Walks through the manuscript, and tells what that makes of the record before.
fn find_words<L: Layout>(task: Task, layout: &mut L, spare: &mut Spare) -> Result<(), Fault>
    ensures found { next L.Layout.meaning (L.Layout.meaning.settings layout.old) task.entry.telling.style task.entry.manuscript.text.now task.entry.pass (lists_of task.entry.telling.old.now) ≡ told result (kept_of spare.new.findings) }
    ensures apart { ApartMade result (kept_of spare.new.findings).lists }
    ensures entries { EntriesMade task.entry.manuscript.text.now result (kept_of spare.new.findings).lists }
    ensures settings { L.Layout.meaning.settings layout.new ≡ L.Layout.meaning.settings layout.old }
{
    findings_hold::<L>();
    walk_through(task, layout, spare)
}

// Makes a pass from the record that the task's telling has, and answers the count of words; the findings then hold the new record.
// Its entries are just those of the manuscript, in order: only the pages come from the pass. The layout is rewound before and after,
// also where a word is refused; then the findings are free.
pub fn make_pass<L: Layout>(task: Task, layout: &mut L, spare: &mut Spare) -> Result<usize, Fault>
    ensures made { Makes (next L.Layout.meaning (L.Layout.meaning.settings layout.old) task.entry.telling.style task.entry.manuscript.text.now task.entry.pass (lists_of task.entry.telling.old.now)) result (kept_of spare.new.findings).lists }
    ensures apart { ApartMade result (kept_of spare.new.findings).lists }
    ensures entries { EntriesMade task.entry.manuscript.text.now result (kept_of spare.new.findings).lists }
    ensures rewound { Rewound L.Layout.meaning layout.old layout.new }
{
    let walked = find_words(task, layout, spare);
    layout.rewind();
    walked?;
    Ok(spare.findings.words())
}
