// The write rights that a grant takes back, listed (document 01, 'The four kinds of request'). The row's folders are those of the classes' list. Rows,
// lists and folders of any places, lengths and numbers may be given; whether they fit is asked once, before any walk. Kind and cells are judged by the
// caller.
#![tactic(auto)]

ghost use Rattle.std.specs.Prelude.{◌≡◌, length};
ghost use Rattle.register.specs.Lent.{labels_lent};
ghost use Rattle.row_labels.specs.Lent.{row_beside};
ghost use Rattle.row_lost.specs.Lost.{lost_listed};
ghost use Rattle.row_lost.specs.Cut.{ListedSoFar, lost_within};

use cells::Row;
use ids::FolderNo;
use register::Labels;

mod walks; // the walks over a row, and the list

// Lists the folders that lose their write right on a grant from the start of a list, and says how many; none if the list has fewer places than the row.
fn list_from_start(row: Row, labels: Labels, folder: FolderNo, kind: u16, list: &mut [u16]) -> usize
    ensures { ListedSoFar list.old (lost_within (length list.old) (labels_lent labels) (row_beside row labels) folder.0 kind) list.new result }
{
    let Some(folders) = row_labels::fit(row, labels) else {
        return 0;
    };
    if labels.classes.len() <= usize::from(folder.0) {
        return 0;
    }
    if list.len() < labels.classes.len() {
        return 0;
    }
    if !kinds::revokes(kind) {
        return 0;
    }
    let o = row_labels::label_of(labels, folder);
    walks::list_stakes(folders, o, list)
}

// The same, with a 0 after them.
pub fn list_lost(row: Row, labels: Labels, folder: FolderNo, kind: u16, list: &mut [u16]) -> usize
    ensures { record { count = result; list = list.new } ≡ lost_listed list.old (labels_lent labels) (row_beside row labels) folder.0 kind }
{
    let count = list_from_start(row, labels, folder, kind, list);
    if count < list.len() {
        list[count] = 0;
    }
    count
}
