// The walk that marks what is lost, with a running place in the matrix, one more at each folder; and the list made from the marks.
ghost use Rattle.std.specs.Prelude.{◌≤◌, length};
ghost use Rattle.vocabulary.specs.Those.{those};
ghost use Rattle.cell_rules.specs.Cut.{is_at_stake};
ghost use Rattle.row.specs.Cut.{passes_in, all_in};
ghost use Rattle.row_lost.specs.Cut.{ListedSoFar, Marked, marked};

use ids::{ClassNo, ClientNo, Label};
use row_labels::LabelledRow;

// Marks the folders at stake. A pass of its own, which goes over several folders at once.
fn mark_stakes(folders: LabelledRow, o: Label, marks: &mut [bool])
    requires { length folders.labels.classes.now ≤ length marks.old }
    ensures { Marked (passes_in is_at_stake folders o) (length folders.entry.labels.classes.now) marks.new }
{
    let LabelledRow { row, labels } = folders;
    let mut place = row.start;
    for f in 0..labels.classes.len() {
        let label = Label::new(ClassNo(labels.classes[f]), ClientNo(labels.clients[f]));
        marks[f] = cell_rules::is_at_stake(row.matrix[place], label, o);
        place += 1;
    }
}

// Lists, from the start of an array, the folders that are marked, rising, and says how many. Each folder passed is stored after those listed and counts
// by its mark, without a branch; so the place after the list may have a number, which is to be cleared.
fn list_marked(marks: &[bool], list: &mut [u16]) -> usize
    requires few { length marks.now ≤ 512 }
    requires room { length marks.now ≤ length list.old }
    ensures { ListedSoFar list.old (those (marked marks.now) (length marks.now)) list.new result }
{
    let mut count: usize = 0;
    for (f, mark) in marks.iter().enumerate() {
        list[count] = f as u16;
        count += usize::from(*mark);
    }
    count
}

// Lists the folders at stake by marks, at least one for each folder.
fn list_by<const N: usize>(folders: LabelledRow, o: Label, list: &mut [u16]) -> usize
    requires small { N ≤ 512 }
    requires marks { length folders.labels.classes.now ≤ N }
    requires room { length folders.labels.classes.now ≤ length list.old }
    ensures { ListedSoFar list.old (all_in is_at_stake folders o) list.new result }
{
    let mut marks = [false; N];
    mark_stakes(folders, o, &mut marks);
    list_marked(&marks[..folders.labels.classes.len()], list)
}

// Lists the folders at stake. They are marked first, many at a time; the loop that lists then looks at a mark alone. In a small house 32 marks do, and no
// more are emptied.
pub(crate) fn list_stakes(folders: LabelledRow, o: Label, list: &mut [u16]) -> usize
    requires { length folders.labels.classes.now ≤ length list.old }
    ensures { ListedSoFar list.old (all_in is_at_stake folders o) list.new result }
{
    if folders.labels.classes.len() <= 32 {
        return list_by::<32>(folders, o, list);
    }
    list_by::<512>(folders, o, list)
}
