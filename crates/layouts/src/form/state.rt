// The settings, the marks and the value of a fixed form.
ghost use Rattle.std.specs.Prelude.{◌*◌, ◌≤◌};
ghost use Rattle.layouts.specs.Lines.{reach, Sound};

use crate::place::Place;
use pages::Page;

// The settings: columns to a cell, cells to a row, rows to a page.
#[derive(Clone, Copy)]
pub struct Grid {
    pub(crate) width: u8,
    pub(crate) cells: u8,
    pub(crate) rows: u8,
    ghost wide: { (8 ≤ width) × (width ≤ 40) },
    ghost celled: { (1 ≤ cells) × (cells ≤ 8) },
    ghost high: { (1 ≤ rows) × (rows ≤ 60) },
    ghost fits: { (20 ≤ cells * width) × (cells * width ≤ 120) },
}

// The cell of a word, from 1.
#[derive(Clone, Copy)]
pub struct CellMark {
    pub(crate) page: Page,
    pub(crate) row: u8,
    pub(crate) cell: u8,
    ghost celled: { 1 ≤ cell },
}

// Puts each word into a cell of its own.
#[derive(Drop)]
pub struct FixedForm {
    pub(crate) grid: Grid,
    pub(crate) place: Place,
    ghost sound: { Sound grid.rows grid.cells (reach place) },
}
