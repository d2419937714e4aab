// A label's name: `len` bytes that obey the rule of a name, then zeros. Equal names are equal values.
ghost use Rattle.std.specs.Prelude.{◌≡◌, ◌-◌, ◌≤◌, true, length, take, drop, replicate};
ghost use Rattle.record.specs.Right.{name_ok};

mod makes;

// Bytes with their number beside, and no `ArrayVec`: a name is copied, which no `ArrayVec` is.
#[derive(Clone, Copy, Debug, PartialEq, Eq)]
pub struct Name {
    bytes: [u8; 16],
    len: u8,
    ghost long: { (length bytes ≡ 16) × (len ≤ 16) },
    ghost right: { name_ok (take len bytes) ≡ true },
    ghost padded: { drop len bytes ≡ replicate (16 - len) 0 },
}
