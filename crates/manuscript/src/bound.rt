// A manuscript that passed the check.
ghost use Rattle.std.specs.Prelude.{◌≡◌, true, is_ok};
ghost use Rattle.manuscript.specs.Checking.{checked};
ghost use Rattle.manuscript.specs.Labelled.{Labelled};

pub mod binding;

// Its bytes; each label in them is defined once, and each reference has its label.
#[derive(Clone, Copy)]
pub struct Manuscript<'a> {
    text: &'a [u8],
    ghost accepted: { is_ok (checked text.now) ≡ true },
    ghost labelled: { Labelled text.now },
}
