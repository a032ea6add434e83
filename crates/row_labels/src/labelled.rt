// A row and the labels of its folders: what a walk over the row needs is said by the type.
ghost use Rattle.std.specs.Prelude.{◌≤◌, length};
ghost use Rattle.vocabulary.specs.Place.{row_at};
ghost use Rattle.row_labels.specs.Cut.{Alongside};

use cells::Row;
use register::Labels;

// A row with a cell, a class and a client for each of its folders, of which there are at most 512.
#[derive(Clone, Copy)]
pub struct LabelledRow<'a> {
    pub row: Row<'a>,
    pub labels: Labels<'a>,
    ghost alongside: { Alongside (row_at row.matrix.now row.start (length labels.classes.now)) labels.classes.now labels.clients.now },
    ghost few: { length labels.classes.now ≤ 512 },
}
