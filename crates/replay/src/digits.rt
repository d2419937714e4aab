// Bytes written as pairs of upper-case hexadecimal digits, `-` for none.
use crate::unanswered::Unanswered;
use std::alloc::{AllocError, Global};

// The bytes of a line of digits.
pub fn decode(heap: Global, digits: &str) -> Result<Vec<u8>, Unanswered> {
    if digits == "-" {
        return Ok(Vec::new(heap));
    }
    // the crate takes lower-case digits too, and requests do not; this stops at the first byte that is no digit, before any memory is taken
    if !digits
        .bytes()
        .all(|b| matches!(b, b'0'..=b'9' | b'A'..=b'F'))
    {
        return Err(Unanswered::Unreadable);
    }
    Ok(hex::decode(heap, digits)?)
}

// The digits of bytes.
pub fn encode(heap: Global, bytes: &[u8]) -> Result<String, AllocError> {
    if bytes.is_empty() {
        return String::from_str(heap, "-");
    }
    hex::encode_upper(heap, bytes)
}
