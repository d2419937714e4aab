// The text of a word that is set.
ghost use Rattle.std.specs.Prelude.{◌≡◌};
ghost use Rattle.typeset.specs.Texts.{text_in, Held};

// The text of a word: the word as it stands in the manuscript, or what was built at the front of the buffer.
pub fn text_of<'a>(word: &'a [u8], buffer: &'a [u8], built: Option<usize>) -> &'a [u8]
    requires { Held buffer.now built }
    ensures { result.now ≡ text_in word.now buffer.now built }
{
    match built {
        Some(end) => &buffer[0..end],
        None => word,
    }
}
