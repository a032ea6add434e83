// The first readable folder of a listed client, sought by four clients at a time. Each walk keeps a running place in the matrix, one more at each folder.
ghost use Rattle.std.specs.Prelude.{◌≤◌, ◌<◌, ◌≡◌, [], length};
ghost use Rattle.vocabulary.specs.Those.{those, some};
ghost use Rattle.vocabulary.specs.Place.{Placed};
ghost use Rattle.row_marks.specs.Walk.{cells_of};
ghost use Rattle.row_pairs.specs.Among.{one_of, found, first_below, four_from, first_among};

use ids::ClientNo;
use row_marks::ClientRow;

// Four clients, sought at once.
#[derive(Clone, Copy)]
pub(crate) struct Four(ClientNo, ClientNo, ClientNo, ClientNo);

impl Four {
    // The four clients from a place of a list on, the first of them again where there are fewer.
    fn from_place(list: &[u16], place: usize) -> Four
        requires { place < length list.now }
        ensures { result ≡ four_from list.now place }
    {
        let first = list[place];
        let second = list.get(place + 1).copied().unwrap_or(first);
        let third = list.get(place + 2).copied().unwrap_or(first);
        let fourth = list.get(place + 3).copied().unwrap_or(first);
        Four(
            ClientNo(first),
            ClientNo(second),
            ClientNo(third),
            ClientNo(fourth),
        )
    }

    // Whether a client is one of them.
    fn has(self, x: ClientNo) -> bool
        ensures { result ≡ one_of self x.0 }
    {
        (x == self.0) | (x == self.1) | (x == self.2) | (x == self.3)
    }
}

// A row, and four clients that are sought in it.
#[derive(Clone, Copy)]
pub(crate) struct Search<'a> {
    row: ClientRow<'a>,
    four: Four,
}

impl<'a> Search<'a> {
    // Whether folder f, which stands at the place, is readable and of one of the four.
    fn found(self, place: usize, f: usize) -> bool
        requires { (f < length self.row.clients.now) × Placed (length self.row.clients.now) self.row.cells.start f place }
        ensures { result ≡ found self.entry f }
    {
        let cell = self.row.cells.matrix[place];
        (cell % 2 == 1) & self.four.has(ClientNo(self.row.clients[f]))
    }

    // Whether a folder below `to` is such a folder, where none below `from`, which stands at the place, is. Without a branch in the loop, so that it
    // goes over several folders at once.
    fn any(self, place: usize, from: usize, to: usize) -> bool
        requires { (from ≤ to) × (to ≤ length self.row.clients.now) × (those (found self) from ≡ []) × Placed (length self.row.clients.now) self.row.cells.start from place }
        ensures { result ≡ some (those (found self.entry) to) }
    {
        let mut seen = false;
        let mut at = place;
        for f in from..to {
            seen |= self.found(at, f);
            at += 1;
        }
        seen
    }

    // The first such folder, or `to`.
    fn first(self, place: usize, from: usize, to: usize) -> usize
        requires { (from ≤ to) × (to ≤ length self.row.clients.now) × (those (found self) from ≡ []) × Placed (length self.row.clients.now) self.row.cells.start from place }
        ensures { result ≡ first_below (found self.entry) to }
    {
        let mut at = place;
        for f in from..to {
            if self.found(at, f) {
                return f;
            }
            at += 1;
        }
        to
    }

    // The same from 0 on, by blocks of 32 folders: folder by folder only in the first block that has such a folder, or in the last.
    fn locate(self, to: usize) -> usize
        requires { to ≤ length self.row.clients.now }
        ensures { result ≡ first_below (found self.entry) to }
    {
        let mut place = self.row.cells.start;
        let mut f = 0;
        while 32 < to - f {
            if self.any(place, f, f + 32) {
                return self.first(place, f, to);
            }
            place += 32;
            f += 32;
        }
        self.first(place, f, to)
    }

    // The same. Mostly there is no such folder, and one look over all says so quickest.
    fn find(self, to: usize) -> usize
        requires { to ≤ length self.row.clients.now }
        ensures { result ≡ first_below (found self.entry) to }
    {
        if self.any(self.row.cells.start, 0, to) {
            return self.locate(to);
        }
        to
    }
}

// The first readable folder of a listed client, or the row's length. Each group is sought only before the first find so far.
pub(crate) fn first_among(row: ClientRow, list: &[u16]) -> usize
    ensures { result ≡ first_among list.now (cells_of row.entry) row.entry.clients.now }
{
    let mut first = row.clients.len();
    for i in (0..list.len()).step_by(4) {
        let four = Four::from_place(list, i);
        first = Search { row, four }.find(first);
    }
    first
}
