// The row that a grant leaves (document 01, 'The four kinds of request'), in its place in the matrix: its folders are those of the classes' list. Rows,
// lists and folders of any places, lengths and numbers may be given; whether they fit is asked once, before the walk. Kind and cells are judged by the
// caller.
#![tactic(auto)]

ghost use Rattle.std.specs.Prelude.{◌+◌, ◌≡◌, length};
ghost use Rattle.vocabulary.specs.Each.{each};
ghost use Rattle.vocabulary.specs.Place.{row_at, with_row_at};
ghost use Rattle.register.specs.Lent.{labels_lent};
ghost use Rattle.row_labels.specs.Cut.{Alongside};
ghost use Rattle.row_grant.specs.Granted.{row_granted, cell_with, cell_entered};
ghost use Rattle.row_grant.specs.Cut.{taken_at};

use cells::Row;
use ids::{ClassNo, ClientNo, FolderNo, Label};
use register::Labels;

// The cell with the rights that a kind asks for.
fn cell_with(cell: u8, kind: u16) -> u8
    ensures { result ≡ cell_with cell kind }
{
    let label = Label::new(ClassNo(0), ClientNo(0));
    cell_rules::cell_left(cell, label, label, true, kind)
}

// Takes the write rights at stake back, if the kind does. What the walk has passed is changed, the rest is as it was. The walk keeps a running place
// in the matrix, one more at each folder.
fn take_back(matrix: &mut [u8], start: usize, labels: Labels, o: Label, kind: u16)
    requires { Alongside (row_at matrix.old start (length labels.classes.now)) labels.classes.now labels.clients.now }
    ensures { matrix.new ≡ with_row_at matrix.old start (length labels.entry.classes.now) (each (taken_at labels.entry.classes.now labels.entry.clients.now o kind) (row_at matrix.old start (length labels.entry.classes.now))) }
{
    let mut place = start;
    for f in 0..labels.classes.len() {
        let label = Label::new(ClassNo(labels.classes[f]), ClientNo(labels.clients[f]));
        matrix[place] = cell_rules::cell_left(matrix[place], label, o, false, kind);
        place += 1;
    }
}

// Enters the rights that a kind asks for in the cell of a folder, where the matrix has it; no other cell changes.
pub fn enter(matrix: &mut [u8], start: usize, folder: FolderNo, kind: u16)
    ensures { matrix.new ≡ cell_entered matrix.old (start + folder.0) kind }
{
    let f = usize::from(folder.0);
    let row = Row {
        matrix: &*matrix,
        start,
    };
    if row.remaining() <= f {
        return;
    }
    let place = start + f;
    matrix[place] = cell_with(matrix[place], kind);
}

// Changes a row as a grant does.
pub fn grant(matrix: &mut [u8], start: usize, labels: Labels, folder: FolderNo, kind: u16)
    ensures { matrix.new ≡ with_row_at matrix.old start (length labels.entry.classes.now) (row_granted (labels_lent labels) (row_at matrix.old start (length labels.entry.classes.now)) folder.0 kind) }
{
    let row = Row {
        matrix: &*matrix,
        start,
    };
    if !row_labels::fits(row, labels, folder) {
        return;
    }
    let o = row_labels::label_of(labels, folder);
    take_back(matrix, start, labels, o, kind);
    enter(matrix, start, folder, kind);
}
