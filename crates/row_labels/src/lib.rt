// The labels that a caller lends beside a person's row: whether they fit it, and a folder's label. Rows, lists and folders of any places, lengths and
// numbers may be given.
#![tactic(auto)]

ghost use Rattle.std.specs.Prelude.{◌≡◌, get_or, is_some, IfSome};
ghost use Rattle.register.specs.Lent.{labels_lent};
ghost use Rattle.row_labels.specs.Fitting.{lists_fit, fitting, label_at};
ghost use Rattle.row_labels.specs.Lent.{row_beside};

use cells::Row;
use ids::{ClassNo, ClientNo, FolderNo, Label};
pub use labelled::LabelledRow;
use register::Labels;

mod labelled; // a row and its labels, which fit

// Whether the lists are of the row's length and it has at most 512 folders. The row has a cell for each folder of the classes' list just where the
// matrix has so many from the row's start on.
pub fn lists_fit(row: Row, labels: Labels) -> bool
    ensures { result ≡ lists_fit (labels_lent labels) (row_beside row labels) }
{
    let folders = labels.classes.len();
    (folders <= row.remaining()) & (labels.clients.len() == folders) & (folders <= 512)
}

// The row with its labels, if they fit.
pub fn fit<'a>(row: Row<'a>, labels: Labels<'a>) -> Option<LabelledRow<'a>>
    ensures fits { is_some result ≡ lists_fit (labels_lent labels) (row_beside row labels) }
    ensures kept { IfSome result (λ l. (l.row ≡ row.entry) × (l.labels ≡ labels.entry)) }
{
    if lists_fit(row, labels) {
        return Some(LabelledRow { row, labels });
    }
    None
}

// Whether the folder is in the row too.
pub fn fits(row: Row, labels: Labels, folder: FolderNo) -> bool
    ensures { result ≡ fitting (labels_lent labels) (row_beside row labels) folder.0 }
{
    lists_fit(row, labels) & (usize::from(folder.0) < labels.classes.len())
}

// What stands at a place; 0 past the end.
fn at_or_0(list: &[u16], i: usize) -> u16
    ensures { result ≡ get_or list.now i 0 }
{
    list.get(i).copied().unwrap_or(0)
}

// The label of a folder, with 0 for a class or a client that its list does not have. A walk, whose places are in the lists, takes them itself.
pub fn label_of(labels: Labels, folder: FolderNo) -> Label
    ensures { result ≡ label_at labels.entry.classes.now labels.entry.clients.now folder.0 }
{
    let f = usize::from(folder.0);
    Label::new(
        ClassNo(at_or_0(labels.classes, f)),
        ClientNo(at_or_0(labels.clients, f)),
    )
}
