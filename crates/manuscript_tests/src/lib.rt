// Examples of the check, run: every refusal with all its fields, and texts just inside and just outside each limit.
#![tactic(auto)]

#[cfg(test)]
mod tests {
    use faults::{Cause, Fault, Span};
    use manuscript::{Counts, bind, check as check_text};
    use std::alloc::{AllocError, Global};
    use std::test::Fail;

    // A text by how often a part stands in it and what ends each part; where that is not empty, a number comes before it.
    // Then the refusal: cause, line, and the name's offset and length; 0 for none, as answers show it.
    const REFUSED: [(usize, &str, &str, Cause, usize, usize, usize); 18] = [
        (60001, "\n", "", Cause::ManuscriptTooLong, 0, 0, 0),
        (1, "a\tb", "", Cause::ByteNotAllowed, 1, 0, 0),
        (1, "a\r\n", "", Cause::ByteNotAllowed, 1, 0, 0),
        (1, "a\n#x\n\t", "", Cause::HeadingMalformed, 2, 0, 0),
        (1, "#### x", "", Cause::HeadingMalformed, 1, 0, 0),
        (1, "# ", "", Cause::HeadingMalformed, 1, 0, 0),
        (1, "!page ", "", Cause::DirectiveUnknown, 1, 0, 0),
        (
            1,
            "!contents\n%\n!contents",
            "",
            Cause::SecondContents,
            3,
            0,
            0,
        ),
        (1, "{l:a}", "", Cause::MarkMalformed, 1, 0, 0),
        (1, "x{q:a}", "", Cause::MarkMalformed, 1, 0, 0),
        (1, "x{p:a}}", "", Cause::MarkMalformed, 1, 0, 0),
        (1, "# x{p:a}", "", Cause::MarkMalformed, 1, 0, 0),
        (
            1,
            "x{l:abcdefghijklmnopq}",
            "",
            Cause::MarkMalformed,
            1,
            0,
            0,
        ),
        (
            1,
            "aaaaaaaaaaaaaaaaaaaaaaaaaaaaaaaaaaaaaaaaaaaaaaaaaaaaaaaaaaaa{l:x}b",
            "",
            Cause::MarkedWordTooLong,
            1,
            0,
            0,
        ),
        (1, "a{l:x} b\n c{l:x} {", "", Cause::LabelRepeated, 2, 14, 1),
        (129, "a{l:n", "}\n", Cause::TooManyLabels, 129, 1174, 4),
        (129, "# h\n", "", Cause::TooManyHeadings, 129, 0, 0),
        (
            1,
            "a{l:x}\n{p:x} {n:xy}",
            "",
            Cause::ReferenceWithoutLabel,
            2,
            16,
            2,
        ),
    ];

    // A text in the same way, and its lines, labels and headings.
    const ACCEPTED: [(usize, &str, &str, usize, usize, usize); 11] = [
        (0, "", "", 0, 0, 0),
        (1, "\n", "", 1, 0, 0),
        (1, "a", "", 1, 0, 0),
        (1, "a\n\nb\n", "", 3, 0, 0),
        (1, "% {\n ! a # b\n# #x{l:y}\n!page", "", 4, 1, 1),
        (1, "x{l:abcdefghijklmnop} {p:abcdefghijklmnop}", "", 1, 1, 0),
        (
            1,
            "aaaaaaaaaaaaaaaaaaaaaaaaaaaaaaaaaaaaaaaaaaaaaaaaaaaaaaaaaaaa{l:x}",
            "",
            1,
            1,
            0,
        ),
        (128, "a{l:n", "}\n", 128, 128, 0),
        (128, "# h\n", "", 128, 0, 128),
        (60000, "a", "", 1, 0, 0),
        (60000, "\n", "", 60000, 0, 0),
    ];

    fn text_of(heap: Global, many: usize, part: &str, end: &str) -> Result<String, AllocError> {
        let mut text = String::new(heap);
        // The number itself is written, so a range is the plain form.
        for i in 0..many {
            text.push_str(part)?;
            if !end.is_empty() {
                text.push_str(format!(in heap; "{i}")?.as_str())?;
            }
            text.push_str(end)?;
        }
        Ok(text)
    }

    #[test]
    fn refused(rt: HostRuntime) -> Result<(), Fail> {
        for (many, part, end, cause, line, offset, length) in REFUSED {
            let text = text_of(rt.alloc(), many, part, end)?;
            let fault = Fault {
                cause,
                line: (line > 0).then_some(line),
                name: (length > 0).then_some(Span { offset, length }),
                pass: 0,
            };
            assert_eq!(rt; check_text(text.as_bytes()), Err(fault), "{}", part);
        }
        Ok(())
    }

    #[test]
    fn accepted(rt: HostRuntime) -> Result<(), Fail> {
        for (many, part, end, lines, labels, headings) in ACCEPTED {
            let text = text_of(rt.alloc(), many, part, end)?;
            let counts = Counts {
                lines,
                labels,
                headings,
            };
            assert_eq!(rt; check_text(text.as_bytes()), Ok(counts), "{}", part);
        }
        Ok(())
    }

    #[test]
    fn binding(rt: HostRuntime) {
        assert_eq!(rt; bind(b"a{l:x}").text().len(), 6);
        assert_eq!(rt; bind(b"{l:x}").text().len(), 0);
        assert!(rt; check_text(&[0, 255]).is_err());
    }
}
