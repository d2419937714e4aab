// Each way in which record lines load or are refused.
use recordlines::{LoadError, load, save};
use std::alloc::{AllocError, Global};
use std::test::Fail;

// The number and the line of the refusal; none where the lines load and saving gives them back.
// `Some((0, 0))` is no refusal, and differs from every pair that a case wants.
fn refusal(heap: Global, lines: &[u8]) -> Option<(u8, usize)> {
    let mut out = [0; 8192];
    match load(heap, lines) {
        Ok(entries) => match save(&entries, &mut out) {
            Ok(end) if out.get(0..end) == Some(lines) => None,
            _ => Some((0, 0)),
        },
        Err(LoadError::Refused(fault)) => Some((fault.cause.number(), fault.line.unwrap_or(0))),
        Err(LoadError::NoMemory) => Some((0, 0)),
    }
}

// The same line so many times, and then an end.
fn repeated(heap: Global, line: &[u8], times: usize, end: &[u8]) -> Result<Vec<u8>, AllocError> {
    let mut text = Vec::new(heap);
    for _ in 0..times {
        text.extend_from_slice(line)?;
    }
    text.extend_from_slice(end)?;
    Ok(text)
}

// Label lines with the names A0, A1 and so on, as many as asked for up to 149, and then an end.
fn labels(heap: Global, count: u8, end: &[u8]) -> Result<Vec<u8>, AllocError> {
    let mut text = Vec::new(heap);
    for i in 0..count.min(149) {
        text.extend_from_slice(b"4C024")?;
        text.push(b"0123456789ABCDEF"[1 + i as usize / 10])?;
        text.push(b'3')?;
        text.push(b'0' + i % 10)?;
        text.extend_from_slice(b"010100000001\n")?;
    }
    text.extend_from_slice(end)?;
    Ok(text)
}

#[test]
fn loads(rt: HostRuntime) {
    let heap = rt.alloc();
    assert_eq!(rt; refusal(heap, b"450000\n"), None);
    assert_eq!(rt;
        refusal(heap, b"4C0176010100000002\n43010100000001\n450101\n"),
        None
    );
    assert_eq!(rt;
        refusal(
            heap,
            b"4C1061626364656667686970707071722D390380018003E7\n450100\n",
        ),
        None
    );
    assert_eq!(rt;
        refusal(heap, b"4C01760000000003E7\n4C0156000000000001\n450200\n"),
        None
    );
}

#[test]
fn malformed(rt: HostRuntime) {
    let heap = rt.alloc();
    assert_eq!(rt; refusal(heap, b""), Some((21, 1)), "no end");
    assert_eq!(rt; refusal(heap, b"43010100000001\n"), Some((21, 2)), "no end");
    assert_eq!(rt; refusal(heap, b"450000"), Some((21, 1)), "no newline");
    assert_eq!(rt;
        refusal(heap, b"43010100000001\n450001"),
        Some((21, 2)),
        "no newline"
    );
    assert_eq!(rt;
        refusal(heap, b"4c0176010100000002\n450100\n"),
        Some((21, 1)),
        "lower case"
    );
    assert_eq!(rt; refusal(heap, b"45000\n"), Some((21, 1)), "odd digits");
    assert_eq!(rt; refusal(heap, b"\n450000\n"), Some((21, 1)), "empty line");
    assert_eq!(rt; refusal(heap, b"440000\n"), Some((21, 1)), "kind");
}

#[test]
fn malformed_frames(rt: HostRuntime) {
    let heap = rt.alloc();
    assert_eq!(rt; refusal(heap, b"4500\n"), Some((21, 1)), "length");
    assert_eq!(rt; refusal(heap, b"45000000\n"), Some((21, 1)), "length");
    assert_eq!(rt; refusal(heap, b"430101000000\n"), Some((21, 1)), "length");
    assert_eq!(rt;
        refusal(heap, b"4C00010100000002\n"),
        Some((21, 1)),
        "name length 0"
    );
    assert_eq!(rt;
        refusal(
            heap,
            b"4C116161616161616161616161616161616161010100000002\n",
        ),
        Some((21, 1)),
        "name length 17"
    );
    assert_eq!(rt;
        refusal(heap, b"43010100000001\n4C0176010100000002\n"),
        Some((21, 2)),
        "order"
    );
    assert_eq!(rt;
        refusal(heap, b"450000\n450000\n"),
        Some((21, 2)),
        "after the end"
    );
    assert_eq!(rt; refusal(heap, b"450000\n4"), Some((21, 2)), "after the end");
}

#[test]
fn invalid(rt: HostRuntime) {
    let heap = rt.alloc();
    assert_eq!(rt;
        refusal(heap, b"4C0176010100000002\n4C0176010100000002\n"),
        Some((22, 2)),
        "name"
    );
    assert_eq!(rt;
        refusal(heap, b"4C015F010100000002\n"),
        Some((22, 1)),
        "character"
    );
    assert_eq!(rt;
        refusal(heap, b"4C0176040100000002\n"),
        Some((22, 1)),
        "level"
    );
    assert_eq!(rt; refusal(heap, b"43000000000001\n"), Some((22, 1)), "level");
    assert_eq!(rt;
        refusal(heap, b"43020100000001\n"),
        Some((22, 1)),
        "counter"
    );
    assert_eq!(rt;
        refusal(heap, b"43018100000001\n"),
        Some((22, 1)),
        "counter"
    );
    assert_eq!(rt; refusal(heap, b"43010100000000\n"), Some((22, 1)), "page");
    assert_eq!(rt; refusal(heap, b"430101000003E8\n"), Some((22, 1)), "page");
    assert_eq!(rt; refusal(heap, b"450100\n"), Some((22, 1)), "count");
}

#[test]
fn full(rt: HostRuntime) -> Result<(), Fail> {
    let heap = rt.alloc();
    let most = repeated(heap, b"43010100000001\n", 128, b"450080\n")?;
    assert_eq!(rt; refusal(heap, most.as_slice()), None);
    let more = repeated(heap, b"43010100000001\n", 129, b"450081\n")?;
    assert_eq!(rt; refusal(heap, more.as_slice()), Some((22, 129)));
    Ok(())
}

#[test]
fn full_of_labels(rt: HostRuntime) -> Result<(), Fail> {
    let heap = rt.alloc();
    let most = labels(heap, 128, b"458000\n")?;
    assert_eq!(rt; refusal(heap, most.as_slice()), None);
    let more = labels(heap, 129, b"458100\n")?;
    assert_eq!(rt; refusal(heap, more.as_slice()), Some((22, 129)));
    Ok(())
}
