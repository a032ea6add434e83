// What the wall says of a request, on the row of the person of the login that asks, and whether a grant takes write rights back (document 01, 'The
// four kinds of request'; document 02, C-12 and C-14). The row's folders are those of the classes' list. Rows, lists and folders of any places, lengths
// and numbers may be given; whether they fit is asked before any walk. Kind and cells are judged by the caller. A grant tells nothing as taken back: it
// is not carried out yet.
#![tactic(auto)]

ghost use Rattle.std.specs.Prelude.{ℕ, ◌≡◌, true, false, List, length, ltb};
ghost use Rattle.vocabulary.specs.Those.{some};
ghost use Rattle.register.specs.Register.{register_by};
ghost use Rattle.register.specs.Lent.{labels_lent};
ghost use Rattle.cell_rules.specs.Cut.{is_foreign, is_at_stake};
ghost use Rattle.row_labels.specs.Lent.{row_beside};
ghost use Rattle.response.specs.Response.{response_answer};
ghost use Rattle.row.specs.Cut.{all_in, first_found, opposers_in, wall_by, wall_answered};
ghost use Rattle.row.specs.Row.{row_answer, ruled, lost_on};

use cells::Row;
use ids::{FolderNo, Label};
use register::{Labels, Pairs, RegisterFault};
use response::{Refusal, Response, WallRefusal};
use row_labels::LabelledRow;

mod walks; // the searches through a row

// Whether the classes' list has the folder.
fn has(labels: Labels, folder: FolderNo) -> bool
    ensures { result ≡ ltb folder.0 (length labels.entry.classes.now) }
{
    usize::from(folder.0) < labels.classes.len()
}

// The rows of the table that the wall speaks by, 20 to 22: the first rival is given, the others are sought where the kind asks for them. It is compiled
// into both decisions: a call would hand over the row and its labels in memory.
#[inline(always)]
fn rule(
    rival: Option<FolderNo>,
    folders: LabelledRow,
    o: Label,
    kind: u16,
) -> Result<(), WallRefusal>
    ensures { (rivals : List ℕ) → rival ≡ first_found rivals → wall_answered result ≡ wall_by rivals (all_in is_foreign folders o) (all_in is_at_stake folders o) kind }
{
    if let Some(f) = rival {
        return Err(WallRefusal::Rival(f));
    }
    if kinds::writes(kind) {
        return match walks::find(cell_rules::is_foreign, folders, o) {
            Some(f) => Err(WallRefusal::Foreign(f)),
            None => Ok(()),
        };
    }
    if kind == 2 {
        return match walks::find(cell_rules::is_at_stake, folders, o) {
            Some(f) => Err(WallRefusal::AtStake(f)),
            None => Ok(()),
        };
    }
    Ok(())
}

// What the person whose row this is gets for a request of this folder and kind, by classes; whatever pairs came with the register are not looked at.
pub fn decide_by_classes(row: Row, labels: Labels, folder: FolderNo, kind: u16) -> Response
    ensures { (firsts seconds : List ℕ) → response_answer result ≡ ruled (row_answer (register_by 0 labels.entry.classes.now labels.entry.clients.now false firsts seconds) (row_beside row labels) folder.0 kind) }
{
    let Some(folders) = row_labels::fit(row, labels) else {
        return Err(Refusal::Register(RegisterFault::OutOfRange));
    };
    if !has(labels, folder) {
        return Err(Refusal::UnknownFolder);
    }
    let o = row_labels::label_of(labels, folder);
    let rival = walks::find(cell_rules::is_rival, folders, o);
    rule(rival, folders, o, kind)?;
    Ok(0)
}

// By pairs, the first rival.
fn first_opposer(folders: LabelledRow, pairs: Pairs, o: Label) -> Option<FolderNo>
    ensures { result ≡ first_found (opposers_in folders pairs o) }
{
    let LabelledRow { row, labels } = folders;
    let first = row_pairs::first_opposer(row, labels.clients, pairs, o.client);
    if first < labels.clients.len() {
        return Some(FolderNo(first as u16));
    }
    None
}

// What the person whose row this is gets for a request of this folder and kind, by pairs.
pub fn decide_by_pairs(
    row: Row,
    labels: Labels,
    pairs: Pairs,
    folder: FolderNo,
    kind: u16,
) -> Response
    ensures { response_answer result ≡ ruled (row_answer (register_by 0 labels.entry.classes.now labels.entry.clients.now true pairs.entry.firsts.now pairs.entry.seconds.now) (row_beside row labels) folder.0 kind) }
{
    let Some(folders) = row_labels::fit(row, labels) else {
        return Err(Refusal::Register(RegisterFault::OutOfRange));
    };
    if !register_pairs::pairs_fit(pairs) {
        return Err(Refusal::Register(RegisterFault::BadPairs));
    }
    if !has(labels, folder) {
        return Err(Refusal::UnknownFolder);
    }
    let o = row_labels::label_of(labels, folder);
    let rival = first_opposer(folders, pairs, o);
    rule(rival, folders, o, kind)?;
    Ok(0)
}

// Whether any folder loses its write right on a grant.
pub fn any_lost(row: Row, labels: Labels, folder: FolderNo, kind: u16) -> bool
    ensures { result ≡ some (lost_on (labels_lent labels) (row_beside row labels) folder.0 kind) }
{
    let Some(folders) = row_labels::fit(row, labels) else {
        return false;
    };
    if !has(labels, folder) {
        return false;
    }
    let o = row_labels::label_of(labels, folder);
    kinds::revokes(kind) && walks::any(cell_rules::is_at_stake, folders, o)
}
