// Where a heading stands.
ghost use Rattle.std.specs.Prelude.{◌≤◌};
ghost use Rattle.std.proofs.Common.{rules};
ghost use Rattle.numerals.specs.Same.{number_same};

use crate::compare::Entry;
use numerals::{Exact, HeadingNumber};
use pages::Page;

#[derive(Clone, Copy, Debug, PartialEq, Eq)]
pub struct ContentsEntry {
    pub number: HeadingNumber,
    pub page: Page,
    ghost headed: { 1 ≤ number.level },
}

impl Exact for ContentsEntry {
    ghost use Rattle.record.specs.Same.{page_same, contents_same};

    ghost exact = { λ x y e. contents_same x y (number_same x.number y.number (Prim.search rules) (Prim.search rules)) (page_same x.page y.page (Prim.search rules)) };

    ghost whole = { Prim.search rules };
}

impl Entry for ContentsEntry {}
