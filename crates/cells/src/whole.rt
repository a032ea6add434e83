// A row that the matrix has whole, walked for a cell above 3. Each walk keeps a running place in the matrix, one more at each folder.
ghost use Rattle.std.specs.Prelude.{◌≡◌, length};
ghost use Rattle.vocabulary.specs.Those.{some};
ghost use Rattle.vocabulary.specs.Place.{row_at};
ghost use Rattle.cells.specs.Above.{aboves, first_above};

// A row whose cells the matrix has.
#[derive(Clone, Copy)]
pub(crate) struct WholeRow<'a> {
    pub matrix: &'a [u8],
    pub start: usize,
    pub folders: usize,
    ghost whole: { length (row_at matrix.now start folders) ≡ folders },
}

impl<'a> WholeRow<'a> {
    // Whether a cell is above 3: whether all of them joined bit by bit are. It goes through all cells: with no early end, many are joined by one
    // instruction. Invariant: what is joined is above 3 just where a cell before f is.
    fn any_above(self) -> bool
        ensures { result ≡ some (aboves (row_at self.entry.matrix.now self.entry.start self.entry.folders)) }
    {
        let mut joined: u8 = 0;
        let mut place = self.start;
        for f in 0..self.folders {
            joined |= self.matrix[place];
            place += 1;
        }
        joined > 3
    }

    // The first cell that is above 3, or how many cells there are. It ends there.
    // Invariant: no cell before f is above 3.
    fn seek_above(self) -> usize
        ensures { result ≡ first_above (row_at self.entry.matrix.now self.entry.start self.entry.folders) }
    {
        let mut place = self.start;
        for f in 0..self.folders {
            if self.matrix[place] > 3 {
                return f;
            }
            place += 1;
        }
        self.folders
    }

    // The same. Mostly there is none, and one look over all says so.
    pub(crate) fn first_above(self) -> usize
        ensures { result ≡ first_above (row_at self.entry.matrix.now self.entry.start self.entry.folders) }
    {
        if self.any_above() {
            return self.seek_above();
        }
        self.folders
    }
}
