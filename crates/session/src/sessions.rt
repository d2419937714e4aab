// The two kinds of session, two types, so that no locked one is passed: plain numbers, which are moved and never copied.
ghost use Rattle.std.specs.Prelude.{◌≡◌, true};
ghost use Rattle.session.specs.Outcomes.{is_settled};

use crate::numbers::Numbers;
pub use opens::open;

mod afterwards;
mod locks;
mod opens;
mod saves;
mod steps;
mod takes;
mod tells;

// A session that makes passes, at most as many as its limit.
#[derive(Drop)]
pub struct Passing {
    numbers: Numbers,
}

// A session whose record has settled.
#[derive(Drop)]
pub struct Locked {
    numbers: Numbers,
    ghost settled: { is_settled numbers.progress.outcome ≡ true },
}
