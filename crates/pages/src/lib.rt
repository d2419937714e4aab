//! The number of a page.
#![tactic(auto)]

ghost use Rattle.std.specs.Prelude.{◌≡◌, ◌+◌, ◌<◌, ◌≤◌, ◌↔◌, IsSome, IfSome};

/// The number of a page: 1 to 999.
#[derive(Clone, Copy, Debug, PartialEq, Eq, PartialOrd, Ord)]
pub struct Page {
    pub number: u16,
    ghost within: { (1 ≤ number) × (number ≤ 999) },
}

impl Page {
    pub fn first() -> Page
        ensures { result.number ≡ 1 }
    {
        Page { number: 1 }
    }

    /// The page with this number, if there is one.
    pub fn new(number: u16) -> Option<Page>
        ensures page { IsSome result ↔ (1 ≤ number) × (number ≤ 999) }
        ensures value { IfSome result (λ p. p.number ≡ number) }
    {
        if (1..=999).contains(&number) {
            Some(Page { number })
        } else {
            None
        }
    }

    pub fn number(self) -> u16
        ensures value { result ≡ self.number }
        ensures within { (1 ≤ result) × (result ≤ 999) }
    {
        self.number
    }

    /// The page after this one, if there is one.
    pub fn next(self) -> Option<Page>
        ensures page { IsSome result ↔ (self.number < 999) }
        ensures value { IfSome result (λ p. p.number ≡ self.number + 1) }
    {
        Page::new(self.number + 1)
    }
}
