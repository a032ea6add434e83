// The search for a rival by pairs, on a row alone (document 02, C-12): the opponents of the client asked for are marked once, then each folder's
// client is looked up, so that the work grows with folders plus pairs. The row's folders are those of the clients' list. Rows and lists of any places
// and lengths may be given; whether they fit is asked once, before any walk.
#![tactic(auto)]

mod client_set; // a set of clients
mod fitting; // a row beside its clients, and pairs, that fit
mod marking; // the opponents, marked
mod walk; // the row, folder by folder

ghost use Rattle.std.specs.Prelude.{◌≡◌, length, is_some, IfSome};
ghost use Rattle.cells.specs.Row.{row_lent};
ghost use Rattle.register.specs.Lent.{clients_lent};
ghost use Rattle.row_marks.specs.Marks.{fitted};
ghost use Rattle.row_marks.specs.Opposed.{first_opposer};

use crate::client_set::ClientSet;
pub use crate::fitting::{ClientRow, FewPairs};
use crate::marking::add_opponents;
use crate::walk::Walk;
use cells::Row;
use ids::ClientNo;
use register::Pairs;

// Whether the clients are of the row's length, and the pairs fit.
pub fn fits(row: Row, clients: &[u16], pairs: Pairs) -> bool
    ensures { result ≡ fitted (clients_lent clients pairs) (row_lent row (length clients.now)) }
{
    (clients.len() <= row.remaining()) & register_pairs::pairs_fit(pairs)
}

// The row beside its clients, and the pairs, if they fit.
pub fn fit<'a>(
    row: Row<'a>,
    clients: &'a [u16],
    pairs: Pairs<'a>,
) -> Option<(ClientRow<'a>, FewPairs<'a>)>
    ensures fits { is_some result ≡ fitted (clients_lent clients pairs) (row_lent row (length clients.now)) }
    ensures kept { IfSome result (λ l. (l.0.cells ≡ row.entry) × (l.0.clients ≡ clients.entry) × (l.1.lists ≡ pairs.entry)) }
{
    if fits(row, clients, pairs) {
        return Some((
            ClientRow {
                cells: row,
                clients,
            },
            FewPairs { lists: pairs },
        ));
    }
    None
}

// The first readable folder of a client in conflict by pairs with `client`, or the row's length; that too where the lists do not fit.
pub fn first_marked(row: Row, clients: &[u16], pairs: Pairs, client: ClientNo) -> usize
    ensures { result ≡ first_opposer (clients_lent clients pairs) (row_lent row (length clients.now)) client.0 }
{
    let Some((beside, few)) = fit(row, clients, pairs) else {
        return row.length(clients.len());
    };
    let mut marks = ClientSet::new();
    add_opponents(few, client, &mut marks);
    let walk = Walk {
        row: beside,
        marks: &marks,
    };
    walk.first()
}
