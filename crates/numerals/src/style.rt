// In which numerals pages are printed.
ghost use Rattle.std.specs.Prelude.{◌≡◌};
ghost use Rattle.numerals.specs.Numeral.{style_letter, OfLetter};

use std::error::Error;
use std::fmt;

#[derive(Clone, Copy, PartialEq, Eq, Debug)]
pub enum NumeralStyle {
    Decimal = b'd' as isize,
    Roman = b'r' as isize,
}

// A letter that stands for no style.
#[derive(Clone, Copy, PartialEq, Eq, Debug)]
pub struct UnknownStyle(pub u8);

// The letter that stands for the style.
impl From<NumeralStyle> for u8 {
    ghost from_gives = { λ style letter. letter ≡ style_letter style };

    fn from(style: NumeralStyle) -> u8 {
        style as u8
    }
}

impl TryFrom<u8> for NumeralStyle {
    type Error = UnknownStyle;

    ghost try_from_gives = { OfLetter };

    fn try_from(letter: u8) -> Result<NumeralStyle, UnknownStyle> {
        match letter {
            b'd' => Ok(NumeralStyle::Decimal),
            b'r' => Ok(NumeralStyle::Roman),
            _ => Err(UnknownStyle(letter)),
        }
    }
}

impl fmt::Display for UnknownStyle {
    fn fmt<W: fmt::Write>(&self, f: &mut fmt::Formatter<W>) -> fmt::Result {
        write!(f, "no numerals have the letter {}", self.0)
    }
}

impl Error for UnknownStyle {}
