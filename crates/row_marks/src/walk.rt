// The walk over the row for a readable folder of a marked client. It keeps a running place in the matrix beside the folder.
ghost use Rattle.std.specs.Prelude.{◌+◌, ◌%◌, ◌≤◌, ◌<◌, ◌≡◌, ◌&&◌, [], eqb, length};
ghost use Rattle.vocabulary.specs.Those.{those};
ghost use Rattle.vocabulary.specs.Place.{Placed};
ghost use Rattle.policy.specs.Rules.{can_read};
ghost use Rattle.row_marks.specs.Walk.{found, first_found, any_of_three};

use crate::client_set::ClientSet;
use crate::fitting::ClientRow;
use ids::ClientNo;

// Odd where a cell gives the read right and the lowest of the bits is set. In bytes, so that the compiler puts the cell's load into the `&`.
fn read_and_marked(cell: u8, bits: u64) -> u8
    ensures { eqb (result % 2) 1 ≡ can_read cell && eqb (bits % 2) 1 }
{
    ((bits % 256) as u8) & cell
}

// A row, and the clients that are sought in it.
#[derive(Clone, Copy)]
pub(crate) struct Walk<'a> {
    pub row: ClientRow<'a>,
    pub marks: &'a ClientSet,
}

impl<'a> Walk<'a> {
    // Odd where folder f, which stands at the place, may be read and is of a marked client.
    fn found(self, place: usize, f: usize) -> u8
        requires { (f < length self.row.clients.now) × Placed (length self.row.clients.now) self.row.cells.start f place }
        ensures { eqb (result % 2) 1 ≡ found self.entry f }
    {
        let cell = self.row.cells.matrix[place];
        let client = ClientNo(self.row.clients[f]);
        read_and_marked(cell, self.marks.bits_from(client))
    }

    // Whether one of three folders, from f on, is such a folder.
    fn found_three(self, place: usize, f: usize) -> bool
        requires { (f + 3 ≤ length self.row.clients.now) × Placed (length self.row.clients.now) self.row.cells.start f place }
        ensures { result ≡ any_of_three (found self.entry) f }
    {
        let one = self.found(place, f);
        let two = self.found(place + 1, f + 1);
        let three = self.found(place + 2, f + 2);
        (one | two | three) % 2 == 1
    }

    // The first folder that may be read and is of a marked client, or the row's length, where none below `from`, which stands at the place, is one.
    fn first_from(self, place: usize, from: usize) -> usize
        requires { (from ≤ length self.row.clients.now) × (those (found self) from ≡ []) × Placed (length self.row.clients.now) self.row.cells.start from place }
        ensures { result ≡ first_found self.entry }
    {
        let mut at = place;
        for f in from..self.row.clients.len() {
            if self.found(at, f) % 2 == 1 {
                return f;
            }
            at += 1;
        }
        self.row.clients.len()
    }

    // The first such folder, or the row's length. 24 at a turn, until one is found, and then one by one from where the turn began; how far the turns
    // reach is asked once, not at each of them. A branch for each three: with one for more the compiler takes four indices at a time through a vector
    // register and back, which is slower.
    pub(crate) fn first(self) -> usize
        ensures { result ≡ first_found self.entry }
    {
        let folders = self.row.clients.len();
        let whole = folders - folders % 24;
        let mut place = self.row.cells.start;
        let mut f = 0;
        while f < whole {
            let next = f + 24;
            let next_place = place + 24;
            if self.found_three(place, f)
                || self.found_three(place + 3, f + 3)
                || self.found_three(place + 6, f + 6)
                || self.found_three(place + 9, f + 9)
                || self.found_three(place + 12, f + 12)
                || self.found_three(place + 15, f + 15)
                || self.found_three(place + 18, f + 18)
                || self.found_three(place + 21, f + 21)
            {
                return self.first_from(place, f);
            }
            place = next_place;
            f = next;
        }
        self.first_from(place, f)
    }
}
