// Where a label's word stands.
ghost use Rattle.std.proofs.Common.{rules};
ghost use Rattle.numerals.specs.Same.{number_same};

use crate::compare::Entry;
use crate::name::Name;
use numerals::{Exact, HeadingNumber};
use pages::Page;

#[derive(Clone, Copy, Debug, PartialEq, Eq)]
pub struct LabelEntry {
    pub name: Name,
    pub number: HeadingNumber,
    pub page: Page,
}

impl Exact for LabelEntry {
    ghost use Rattle.record.specs.Same.{name_same, page_same, label_same};

    ghost exact = { λ x y e. label_same x y (name_same x.name y.name (Prim.search rules) (Prim.search rules)) (number_same x.number y.number (Prim.search rules) (Prim.search rules)) (page_same x.page y.page (Prim.search rules)) };

    ghost whole = { Prim.search rules };
}

impl Entry for LabelEntry {}
