// What fits, said by the type: a row beside the clients of its folders, and pairs that are few enough.
ghost use Rattle.std.specs.Prelude.{◌-◌, ◌≤◌, ◌≡◌, length};

use cells::Row;
use register::Pairs;

// A row with a cell for each of its clients.
#[derive(Clone, Copy)]
pub struct ClientRow<'a> {
    pub cells: Row<'a>,
    pub clients: &'a [u16],
    ghost inside: { length clients.now ≤ length cells.matrix.now - cells.start },
}

// Two lists of pairs of one length, with at most 256 pairs.
#[derive(Clone, Copy)]
pub struct FewPairs<'a> {
    pub lists: Pairs<'a>,
    ghost even: { length lists.firsts.now ≡ length lists.seconds.now },
    ghost few: { length lists.firsts.now ≤ 256 },
}
