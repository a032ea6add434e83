// The search for a rival by pairs, on a row alone (document 02, C-12), quickest where the client asked for has few opponents. The row's folders are
// those of the clients' list. Rows and lists of any places and lengths may be given; whether they fit is asked before any walk.
#![tactic(auto)]

mod groups; // the folders of listed clients, sought by four clients at a time
mod listing; // the opponents, counted and listed

ghost use Rattle.std.specs.Prelude.{◌≡◌, length};
ghost use Rattle.cells.specs.Row.{row_lent};
ghost use Rattle.register.specs.Lent.{clients_lent};
ghost use Rattle.row_marks.specs.Opposed.{first_opposer};

use crate::groups::first_among;
use crate::listing::{count_named, list_opponents};
use cells::Row;
use ids::ClientNo;
use register::Pairs;

// The first readable folder of a client in conflict by pairs with `client`, or the row's length; that too where the lists do not fit.
// Mostly no pair names the client, or few do; with many opponents it is quicker to look up each folder's client than to compare it with each of them.
pub fn first_opposer(row: Row, clients: &[u16], pairs: Pairs, client: ClientNo) -> usize
    ensures { result ≡ first_opposer (clients_lent clients pairs) (row_lent row (length clients.now)) client.0 }
{
    let Some((beside, few)) = row_marks::fit(row, clients, pairs) else {
        return row.length(clients.len());
    };
    let count = count_named(few, client);
    if count == 0 {
        return row.length(clients.len());
    }
    if 32 < count {
        return row_marks::first_marked(row, clients, pairs, client);
    }
    let mut room = [0; 32];
    first_among(beside, list_opponents(few, client, &mut room))
}
