// What a pass is asked for, and what it needs besides a layout.
ghost use Rattle.std.specs.Prelude.{◌≡◌, IfOk, replicate};
ghost use Rattle.findings.specs.Keeping.{kept_of, nothing};

use findings::Findings;
use manuscript::Manuscript;
use std::alloc::{AllocError, Global};
use typeset::{NumeralBuffer, Telling};

// The manuscript, what its words are told from, and the number that a fault tells of the pass.
#[derive(Clone, Copy)]
pub struct Task<'a> {
    pub manuscript: Manuscript<'a>,
    pub telling: Telling<'a>,
    pub pass: u8,
}

// Memory that is free between passes: the table of entries found, and the numeral buffer.
#[derive(Drop)]
pub struct Spare {
    pub findings: Findings,
    pub numerals: NumeralBuffer,
}

impl Spare {
    // All room is reserved here.
    pub fn new(heap: Global) -> Result<Spare, AllocError>
        ensures findings { IfOk result (λ s. kept_of s.findings ≡ nothing) }
        ensures numerals { IfOk result (λ s. s.numerals.bytes ≡ replicate 72 0) }
    {
        let findings = Findings::new(heap)?;
        Ok(Spare {
            findings,
            numerals: NumeralBuffer::new(),
        })
    }
}

#[cfg(test)]
mod tests {
    use super::Spare;
    use std::alloc::AllocError;

    #[test]
    fn spare_is_made(rt: HostRuntime) -> Result<(), AllocError> {
        let spare = Spare::new(rt.alloc())?;
        assert_eq!(rt; spare.findings.words(), 0);
        Ok(())
    }
}
