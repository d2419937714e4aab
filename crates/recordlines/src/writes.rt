// From bytes to lines of digits.
ghost use Rattle.std.specs.Prelude.{◌≡◌, ◌<◌};
ghost use Rattle.recordlines.specs.Hex.{hex_digit_lem, hex_pair as hex_pair_lem};
ghost use Rattle.recordlines.specs.Frame.{line};

use crate::frames::Frame;
use arrayvec::ArrayVec;

// Room for the line of any frame.
pub type Line = ArrayVec<u8, 49>;

// By hand: the crate `hex` writes capitals only on the heap.
fn hex_digit(value: u8) -> u8
    requires { value < 16 }
    ensures { result ≡ hex_digit_lem value }
{
    if value < 10 {
        b'0' + value
    } else {
        b'A' - 10 + value
    }
}

// The two digits of a byte.
fn hex_pair(byte: u8) -> [u8; 2]
    ensures { result ≡ hex_pair_lem byte }
{
    [hex_digit(byte / 16), hex_digit(byte % 16)]
}

// The line of a frame: its digits and a newline.
pub fn line_of(frame: &Frame) -> Line
    ensures { result.items ≡ line frame.now.items }
{
    let mut line = Line::new();
    for byte in frame.iter() {
        let [high, low] = hex_pair(*byte);
        line.push(high);
        line.push(low);
    }
    line.push(b'\n');
    line
}
