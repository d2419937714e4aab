// Looking up a name, and defining one more.
ghost use Rattle.std.specs.Prelude.{◌≡◌, [], ◌∷◌, ◌++◌, length, is_ok, if◌then◌else◌, nat_lt};
ghost use Rattle.manuscript.specs.Standing.{among};
ghost use Rattle.manuscript.specs.Values.{held};

use crate::labels::Labels;
use arrayvec::{ArrayVec, CapacityError};

impl<'a> Labels<'a> {
    pub fn new() -> Labels<'a>
        ensures { held result ≡ [] }
    {
        Labels {
            names: ArrayVec::new(),
        }
    }

    pub fn count(&self) -> usize
        ensures { result ≡ length (held self.now) }
    {
        self.names.len()
    }

    pub fn contains(&self, name: &[u8]) -> bool
        ensures { result ≡ among name.now (held self.now) }
    {
        self.names.iter().any(|known| *known == name)
    }

    // One name more; refused, and nothing changed, where there are 128.
    pub fn push(&mut self, name: &'a [u8]) -> Result<(), CapacityError<&'a [u8]>>
        ensures room { is_ok result ≡ nat_lt (length (held self.old)) 128 }
        ensures after { held self.new ≡ (if is_ok result then held self.old ++ name.now ∷ [] else held self.old) }
    {
        self.names.try_push(name)
    }
}
