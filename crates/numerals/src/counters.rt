// The three counters of headings, one for each level.
ghost use Rattle.std.proofs.Common.{rules, arith};
ghost use Rattle.std.proofs.lemmas.Bool.Decides.{nat_tests};

use crate::exact::Exact;

#[derive(Clone, Copy, Debug, PartialEq, Eq)]
pub struct Counters {
    pub first: u8,
    pub second: u8,
    pub third: u8,
}

impl Exact for Counters {
    ghost exact = { Prim.search rules };

    ghost whole = { Prim.search rules };
}
