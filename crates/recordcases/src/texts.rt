// Numerals and numbers as they are printed.
use numerals::{Counters, HeadingNumber, NumeralStyle, heading_number, page_numeral};

// Whether a page prints as this text, between bytes that stay: the buffer is lent to the call that is tested, here and below.
fn prints(style: NumeralStyle, page: u16, text: &[u8]) -> bool {
    let mut out = [b'*'; 16];
    let end = page_numeral(style, page, &mut out, 1);
    end.is_some_and(|end| out.get(1..end) == Some(text) && out[0] == b'*' && out[15] == b'*')
}

// Whether a heading's number prints as this text.
fn numbers(level: u8, first: u8, second: u8, third: u8, text: &[u8]) -> bool {
    let counters = Counters {
        first,
        second,
        third,
    };
    let mut out = [0; 16];
    let number = HeadingNumber::new(level, counters);
    let end = number.and_then(|number| heading_number(number, &mut out, 0));
    end.is_some_and(|end| out.get(0..end) == Some(text))
}

#[test]
fn pages(rt: HostRuntime) {
    assert!(rt; prints(NumeralStyle::Decimal, 1, b"1"));
    assert!(rt; prints(NumeralStyle::Decimal, 40, b"40"));
    assert!(rt; prints(NumeralStyle::Decimal, 999, b"999"));
    assert!(rt; prints(NumeralStyle::Roman, 9, b"ix"));
    assert!(rt; prints(NumeralStyle::Roman, 444, b"cdxliv"));
    assert!(rt; prints(NumeralStyle::Roman, 888, b"dccclxxxviii"));
    assert!(rt; prints(NumeralStyle::Roman, 999, b"cmxcix"));
}

#[test]
fn refused_pages(rt: HostRuntime) {
    let mut out = [b'*'; 3];
    assert_eq!(rt; page_numeral(NumeralStyle::Decimal, 0, &mut out, 0), None);
    assert_eq!(rt;
        page_numeral(NumeralStyle::Decimal, 1000, &mut out, 0),
        None
    );
    assert_eq!(rt; page_numeral(NumeralStyle::Roman, 8, &mut out, 0), None);
    assert_eq!(rt; page_numeral(NumeralStyle::Roman, 1, &mut out, 3), None);
    assert!(rt; out == [b'*'; 3]);
}

#[test]
fn headings(rt: HostRuntime) {
    assert!(rt; numbers(0, 0, 0, 0, b"0"));
    assert!(rt; numbers(1, 128, 0, 0, b"128"));
    assert!(rt; numbers(2, 0, 1, 0, b"0.1"));
    assert!(rt; numbers(3, 12, 0, 100, b"12.0.100"));
    assert!(rt; !numbers(2, 1, 0, 0, b"1.0"));
    assert!(rt; !numbers(4, 1, 1, 1, b"1.1.1"));
    assert!(rt; !numbers(1, 129, 0, 0, b"129"));
}
