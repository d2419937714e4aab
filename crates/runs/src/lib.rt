// Classes of bytes, and how far a run of one class goes: every scan of the product is one of these.
#![tactic(auto)]

ghost use Rattle.std.specs.Prelude.{◌≡◌, ℕ, ◌≤◌, Bool, not, length, ◌==◌};
ghost use Rattle.std.specs.List.{prefix_len};
ghost use Rattle.runs.specs.Run.{all};

// A class of bytes.
pub trait Class {
    ghost test: { ℕ → Bool };

    fn has(b: u8) -> bool
        ensures { result ≡ test b };
}

// The bytes that are B.
pub struct Byte<const B: u8>;

impl<const B: u8> Class for Byte<B> {
    ghost test = { λ x. x == B };

    fn has(b: u8) -> bool {
        b == B
    }
}

// The bytes that are not B.
pub struct AnyBut<const B: u8>;

impl<const B: u8> Class for AnyBut<B> {
    ghost test = { λ x. not (x == B) };

    fn has(b: u8) -> bool {
        b != B
    }
}

// How many bytes at the front are of the class.
pub fn run_length<C: Class>(bytes: &[u8]) -> usize
    ensures value { result ≡ prefix_len C.Class.test bytes.now }
    ensures bound { result ≤ length bytes.now }
{
    bytes.iter().take_while(|b| C::has(**b)).count()
}

// Whether every byte is of the class.
pub fn all_of<C: Class>(bytes: &[u8]) -> bool
    ensures { result ≡ all C.Class.test bytes.now }
{
    bytes.iter().all(|b| C::has(*b))
}
