// Telling a compositor one word, or one end.
ghost use Rattle.std.specs.Prelude.{◌≡◌, ◌≤◌, [], ◌∷◌, length, Ok};
ghost use Rattle.compose.specs.Acts.{set_word, end_of_paragraph, end_of_page, part_of};
ghost use Rattle.compose.specs.Playing.{Plays};
ghost use Rattle.typeset.specs.Tellers.{telling_to};
ghost use Rattle.typeset.specs.Texts.{text_in, Held};

use super::Teller;
use crate::texts::text_of;
use compose::{Compositor, Role, Source};
use faults::Fault;
use numerals::Text;

impl<'t, 'n, 'c, C: Compositor> Teller<'t, 'n, 'c, C> {
    // Has a word set: a part of the manuscript, or what was built at the front of the buffer. Role and source stay two parameters, as
    // the compositor takes them.
    pub fn say(
        &mut self,
        word: &[u8],
        built: Option<usize>,
        role: Role,
        source: Source,
    ) -> Result<(), Fault>
        requires { Held self.old.numerals.now.bytes built }
        ensures { Plays (telling_to C.playing) self.old (set_word (text_in word.now self.old.numerals.now.bytes built) (part_of role) source ∷ []) self.new result }
    {
        let numerals = &*self.numerals;
        let compositor = &mut *self.compositor;
        compositor.word(text_of(word, &numerals.bytes, built), role, source)
    }

    // Has a numeral or a number set, which is built in the buffer.
    pub fn say_text(&mut self, text: &Text, role: Role, source: Source) -> Result<(), Fault>
        ensures { Plays (telling_to C.playing) self.old (set_word text.now.items (part_of role) source ∷ []) self.new result }
    {
        let numerals = &mut *self.numerals;
        let end = numerals.hold(b"", text.as_slice(), b"");
        self.say(b"", Some(end), role, source)
    }

    pub fn end_paragraph(&mut self)
        ensures { Plays (telling_to C.playing) self.old (end_of_paragraph ∷ []) self.new (Ok result) }
    {
        self.compositor.end_paragraph();
    }

    pub fn end_page(&mut self)
        ensures { Plays (telling_to C.playing) self.old (end_of_page ∷ []) self.new (Ok result) }
    {
        self.compositor.end_page();
    }
}
