// What the laws give of whole runs, at each of the two layouts.
// Calls of the generic functions of `layout`, one for each layout: each contract names what its settings are.
ghost use Rattle.std.specs.Prelude.{◌≡◌, ◌*◌};
ghost use Rattle.layout.specs.Runs.{ReadingOrder, ReadsWithin};
ghost use Rattle.layouts.specs.Filling.{filling, Fronted as FillerFronted};
ghost use Rattle.layouts.specs.Forming.{forming, Fronted as FormFronted};

use crate::filler::LineFiller;
use crate::form::FixedForm;
use layout::{printed_order, reading_order};

// The words of every accepted run of a line filler stand in reading order, apart and inside the page.
pub fn filler_reading_order()
    ensures order { ReadingOrder filling }
    ensures front { FillerFronted }
{
    reading_order::<LineFiller>();
}

// Height and width of a filler's page, inside which every accepted run stands in reading order.
pub fn filler_page(filler: &LineFiller) -> (u8, u8)
    ensures height { result.0 ≡ filler.now.sheet.height }
    ensures width { result.1 ≡ filler.now.sheet.width }
    ensures reads { ReadsWithin filling filler.now.sheet result.0 result.1 }
{
    printed_order(filler)
}

// The words of every accepted run of a fixed form stand in reading order, apart and inside the page.
pub fn form_reading_order()
    ensures order { ReadingOrder forming }
    ensures front { FormFronted }
{
    reading_order::<FixedForm>();
}

// Height and width of a form's page, inside which every accepted run stands in reading order.
pub fn form_page(form: &FixedForm) -> (u8, u8)
    ensures height { result.0 ≡ form.now.grid.rows }
    ensures width { result.1 ≡ form.now.grid.cells * form.now.grid.width }
    ensures reads { ReadsWithin forming form.now.grid result.0 result.1 }
{
    printed_order(form)
}
