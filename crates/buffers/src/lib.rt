// Writing into a lent buffer: the bytes at a place change, and no other.
// Buffer and place are two parameters: of a struct with both, each contract would also say that it still holds the same buffer.
#![tactic(auto)]

ghost use Rattle.std.specs.Prelude.{◌≡◌, ◌+◌, ◌≤◌, length};
ghost use Rattle.buffers.specs.Written.{written, Puts};

// Writes bytes for which there is room, and answers their end.
pub fn write(out: &mut [u8], at: usize, bytes: &[u8]) -> usize
    requires { at + length bytes.now ≤ length out.old }
    ensures end { result ≡ at + length bytes.now }
    ensures after { out.new ≡ written out.old at bytes.now }
{
    let end = at + bytes.len();
    out[at..end].copy_from_slice(bytes);
    end
}

// Writes bytes and answers their end, or changes nothing where they do not fit.
pub fn put(out: &mut [u8], at: usize, bytes: &[u8]) -> Option<usize>
    ensures { Puts bytes.now out.old at result out.new }
{
    if at > out.len() {
        return None;
    }
    if bytes.len() > out.len() - at {
        return None;
    }
    Some(write(out, at, bytes))
}
