// The searches through a row and the labels beside it. What a search looks for is a test of a folder's cell and label, beside the label asked for. Each
// walk keeps a running place in the matrix, one more at each folder.
ghost use Rattle.std.specs.Prelude.{◌≡◌, cond};
ghost use Rattle.vocabulary.specs.Those.{some};
ghost use Rattle.row.specs.Cut.{Test, Tells, all_in, first_found};

use ids::{ClassNo, ClientNo, FolderNo, Label};
use row_labels::LabelledRow;

// Whether the row has a folder that passes the test: what the walk has seen so far. It passes over every folder, without a branch, so that it can go
// over several at a time.
pub(crate) fn any<F: Fn(u8, Label, Label) -> bool>(test: F, folders: LabelledRow, o: Label) -> bool
    requires { F.IsAlwaysCallable test }
    ensures { (p : Test) → Tells (F.post test) p → result ≡ some (all_in p folders o) }
{
    let LabelledRow { row, labels } = folders;
    let mut seen = false;
    let mut place = row.start;
    for f in 0..labels.classes.len() {
        let cell = row.matrix[place];
        let label = Label::new(ClassNo(labels.classes[f]), ClientNo(labels.clients[f]));
        seen |= test(cell, label, o);
        place += 1;
    }
    seen
}

// The first folder that passes the test. What the walk has passed has none.
fn first<F: Fn(u8, Label, Label) -> bool>(
    test: F,
    folders: LabelledRow,
    o: Label,
) -> Option<FolderNo>
    requires { F.IsAlwaysCallable test }
    ensures { (p : Test) → Tells (F.post test) p → result ≡ first_found (all_in p folders o) }
{
    let LabelledRow { row, labels } = folders;
    let mut place = row.start;
    for f in 0..labels.classes.len() {
        let cell = row.matrix[place];
        let label = Label::new(ClassNo(labels.classes[f]), ClientNo(labels.clients[f]));
        if test(cell, label, o) {
            return Some(FolderNo(f as u16));
        }
        place += 1;
    }
    None
}

// A number where a test holds, else another.
fn choose(test: bool, one: u16, other: u16) -> u16
    ensures { result ≡ cond test one other }
{
    if test { one } else { other }
}

// The same as `first`: the smallest that the walk has met. Without a branch and in 16 bits, so that it goes over several folders at a time.
fn least<F: Fn(u8, Label, Label) -> bool>(
    test: F,
    folders: LabelledRow,
    o: Label,
) -> Option<FolderNo>
    requires { F.IsAlwaysCallable test }
    ensures { (p : Test) → Tells (F.post test) p → result ≡ first_found (all_in p folders o) }
{
    let LabelledRow { row, labels } = folders;
    let none = labels.classes.len() as u16;
    let mut least = none;
    let mut place = row.start;
    for f in 0..none {
        let i = usize::from(f);
        let cell = row.matrix[place];
        let label = Label::new(ClassNo(labels.classes[i]), ClientNo(labels.clients[i]));
        let found = test(cell, label, o);
        least = least.min(choose(found, f, none));
        place += 1;
    }
    if least < none {
        return Some(FolderNo(least));
    }
    None
}

// The first folder that passes the test. Among few it is quickest to seek it at once. With some more the least is quicker: it has no branch to foretell.
// Mostly there is none, and over many folders a look that says so comes first.
pub(crate) fn find<F: Fn(u8, Label, Label) -> bool + Copy>(
    test: F,
    folders: LabelledRow,
    o: Label,
) -> Option<FolderNo>
    requires { F.IsAlwaysCallable test }
    ensures { (p : Test) → Tells (F.post test) p → result ≡ first_found (all_in p folders o) }
{
    let n = folders.labels.classes.len();
    if n < 16 {
        return first(test, folders, o);
    }
    if 32 <= n && !any(test, folders, o) {
        return None;
    }
    least(test, folders, o)
}
