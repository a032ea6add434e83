// A person's row in the matrix, and the search for what is no cell: document 01, 'The matrix', has cells of 0 to 3.
#![tactic(auto)]

ghost use Rattle.std.specs.Prelude.{◌-◌, ◌≡◌, length};
ghost use Rattle.cells.specs.Above.{first_above};
ghost use Rattle.cells.specs.Row.{row_lent};

use whole::WholeRow;

mod whole; // the walks over a row that the matrix has whole

// A row: it begins at a place of the matrix and has a cell for each folder, as far as the matrix has them. One that lies past the matrix's end, in part
// or in whole, may be given too.
#[derive(Clone, Copy)]
pub struct Row<'a> {
    pub matrix: &'a [u8],
    pub start: usize,
}

impl<'a> Row<'a> {
    // How many cells the matrix has from the row's start on.
    pub fn remaining(self) -> usize
        ensures { result ≡ length self.entry.matrix.now - self.entry.start }
    {
        self.matrix.len().saturating_sub(self.start)
    }

    // How many cells of the row the matrix has: as many as there are folders, if the row lies in the matrix.
    pub fn length(self, folders: usize) -> usize
        ensures { result ≡ length (row_lent self folders) }
    {
        self.remaining().min(folders)
    }

    // The first cell above 3, or how many cells the matrix has of the row.
    pub fn first_above(self, folders: usize) -> usize
        ensures { result ≡ first_above (row_lent self folders) }
    {
        let row = WholeRow {
            matrix: self.matrix,
            start: self.start,
            folders: self.length(folders),
        };
        row.first_above()
    }
}

// The place of the first cell above 3, or the length.
pub fn first_above(cells: &[u8]) -> usize
    ensures { result ≡ first_above cells.now }
{
    let all = Row {
        matrix: cells,
        start: 0,
    };
    all.first_above(cells.len())
}
