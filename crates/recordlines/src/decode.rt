// From digits to bytes.
ghost use Rattle.std.specs.Prelude.{◌≡◌, ◌<◌, IfSome};
ghost use Rattle.recordlines.specs.Hex.{digit_value, pair_value_lem};
ghost use Rattle.recordlines.specs.Step.{Decodes};

use crate::frames::Frame;

// The value of an upper-case hexadecimal digit. By hand, as the library's `to_digit` takes small letters too.
fn digit_value(b: u8) -> Option<u8>
    ensures value { result ≡ digit_value b }
    ensures bound { IfSome result (λ v. v < 16) }
{
    match b {
        b'0'..=b'9' => Some(b - b'0'),
        b'A'..=b'F' => Some(b - b'A' + 10),
        _ => None,
    }
}

fn pair_value(high: u8, low: u8) -> Option<u8>
    ensures { result ≡ pair_value_lem high low }
{
    let high = digit_value(high)?;
    let low = digit_value(low)?;
    Some(high * 16 + low)
}

// The frame that the digits of a line spell, if they are pairs and no more than a frame has.
pub fn decode(digits: &[u8]) -> Option<Frame>
    ensures { Decodes digits.now result }
{
    if digits.len() > 48 {
        return None;
    }
    let mut frame = Frame::new();
    let (pairs, rest) = digits.as_chunks::<2>();
    for [high, low] in pairs {
        frame.push(pair_value(*high, *low)?);
    }
    if rest.is_empty() { Some(frame) } else { None }
}
