// The comparison of two lists of entries.
ghost use Rattle.std.specs.Prelude.{◌≡◌, Decides};
ghost use Rattle.record.specs.Differ.{agreed, FirstDifference};

use numerals::Exact;

// What can stand in a record's list: its equality is that of the values.
pub trait Entry: Exact {}

// How many entries the two lists have in common at the front.
fn agreement<E: Entry>(a: &[E], b: &[E]) -> usize
    ensures { result ≡ agreed E.PartialEq.eq a.now b.now }
{
    a.iter().zip(b).take_while(|(x, y)| x == y).count()
}

// The first place at which the two lists differ, where one may end before the other; none where they are equal.
pub fn first_difference<E: Entry>(a: &[E], b: &[E]) -> Option<usize>
    ensures { FirstDifference a.now b.now result }
{
    let n = agreement(a, b);
    if n < a.len() || n < b.len() {
        Some(n)
    } else {
        None
    }
}

// Whether the two lists are equal.
pub fn equal_lists<E: Entry>(a: &[E], b: &[E]) -> bool
    ensures { Decides result (a.now ≡ b.now) }
{
    first_difference(a, b).is_none()
}
