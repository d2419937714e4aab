// The interface of a compositor.
ghost use Rattle.std.specs.Prelude.{[], ◌∷◌, Ok};
ghost use Rattle.compose.specs.Acts.{set_word, end_of_paragraph, end_of_page, part_of};
ghost use Rattle.compose.specs.Playing.{Playing, Plays};

use crate::acts::{Role, Source};
use faults::Fault;

pub trait Compositor {
    // What its acts do.
    ghost playing: { Playing Self };

    // Sets a word, or refuses it.
    fn word(&mut self, word: &[u8], role: Role, source: Source) -> Result<(), Fault>
        ensures { Plays playing self.old (set_word word.now (part_of role) source ∷ []) self.new result };

    // Ends the paragraph, and never refuses.
    fn end_paragraph(&mut self)
        ensures { Plays playing self.old (end_of_paragraph ∷ []) self.new (Ok result) };

    // Ends the page, and never refuses.
    fn end_page(&mut self)
        ensures { Plays playing self.old (end_of_page ∷ []) self.new (Ok result) };
}
