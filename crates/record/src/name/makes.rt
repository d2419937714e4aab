// How a name is made of bytes and read.
ghost use Rattle.std.specs.Prelude.{◌≡◌, true};
ghost use Rattle.std.proofs.Common.{rules};
ghost use Rattle.record.specs.Naming.{Named, name_bytes};
ghost use Rattle.record.specs.Right.{name_ok};
ghost use Rattle.record.specs.Same.{name_same};

use super::Name;
use buffers::write;
use names::named;
use numerals::Exact;

// The name with these bytes, which are one, and zeros behind them.
fn padded(text: &[u8]) -> Name
    requires { name_ok text.now ≡ true }
    ensures { name_bytes result ≡ text.now }
{
    let mut bytes = [0; 16];
    let end = write(&mut bytes, 0, text);
    Name {
        bytes,
        len: end as u8,
    }
}

impl Name {
    // The name with these bytes, if they are one.
    #[tactic(auto, unfolding(crate::specs::Right::name_ok))]
    pub fn new(text: &[u8]) -> Option<Name>
        ensures { Named text.now result }
    {
        if named(text).is_err() {
            return None;
        }
        Some(padded(text))
    }

    pub fn as_bytes(&self) -> &[u8]
        ensures { result.now ≡ name_bytes self.now }
    {
        let end = self.len as usize;
        &self.bytes[0..end]
    }
}

impl Exact for Name {
    ghost exact = { λ x y e. name_same x y (Prim.search rules) (Prim.search rules) };

    ghost whole = { Prim.search rules };
}
