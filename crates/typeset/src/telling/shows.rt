// What a record shows in the words of the next pass.
ghost use Rattle.std.specs.Prelude.{◌≡◌, option_map};
ghost use Rattle.record.specs.Labels.{place_of};
ghost use Rattle.record.specs.Lists.{lists_of};
ghost use Rattle.record.specs.Meaning.{label_of};
ghost use Rattle.record.specs.Naming.{name_bytes};
ghost use Rattle.typeset.specs.Shown.{unknown, looked_up, mark_shows};
ghost use Rattle.typeset.specs.Texts.{telling_shown};

use super::Telling;
use marks::Mark;
use numerals::{Text, page_text};
use record::{LabelEntry, Name};

// What stands for a label that a record lacks.
fn unknown() -> Text
    ensures { result.items ≡ unknown }
{
    let mut text = Text::new();
    text.push(b'?');
    text.push(b'?');
    text
}

impl<'a> Telling<'a> {
    // The entry of a label in the record before, if that has one.
    fn entry(self, name: &Name) -> Option<LabelEntry>
        ensures { option_map (λ e. (label_of e).position) result ≡ looked_up (lists_of self.entry.old.now).labels (place_of (name_bytes name.now) (lists_of self.entry.old.now).labels) }
    {
        let place = self.old.find(name)?;
        Some(self.old.labels()[place])
    }

    // What stands in the place of a mark: nothing for a label.
    pub(crate) fn shown(self, mark: Mark, name: &Name) -> Text
        ensures { result.items ≡ mark_shows (telling_shown self.entry) mark (name_bytes name.now) }
    {
        match mark {
            Mark::Label => Text::new(),
            Mark::Page => match self.entry(name) {
                Some(entry) => page_text(self.style, entry.page),
                None => unknown(),
            },
            Mark::Number => match self.entry(name) {
                Some(entry) => entry.number.text(),
                None => unknown(),
            },
        }
    }
}
