// Layouts that requests name.
use crate::unanswered::Unanswered;
use layout::Printing;
use layouts::{FixedForm, LineFiller};
use std::alloc::Global;

// What a request asks of the layout that it names.
pub(crate) trait Job {
    fn run<P: Printing>(self, heap: Global, layout: &mut P) -> Result<String, Unanswered>;
}

// Does a job on the layout named `L:W:H` or `F:w:K:R`.
pub(crate) fn on_layout<J: Job + Drop>(
    heap: Global,
    name: &str,
    job: J,
) -> Result<String, Unanswered> {
    let parts: Vec<&str> = name.split(':').collect(heap)?;
    let parts: &[&str] = &parts;
    match parts {
        ["L", width, height] => {
            let mut filler = LineFiller::new(width.parse()?, height.parse()?)?;
            job.run(heap, &mut filler)
        }
        ["F", cell, cells, rows] => {
            let mut form = FixedForm::new(cell.parse()?, cells.parse()?, rows.parse()?)?;
            job.run(heap, &mut form)
        }
        _ => Err(Unanswered::Unreadable),
    }
}
