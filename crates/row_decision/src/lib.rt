// The decision on a request, on the row of the person of the login that asks (document 01, 'Where each refusal is checked'; document 02, C-12 and
// C-14): 1 for a row of over 512 folders, rows 8 and 9 of the table, 1 for lists that do not fit the row, then what the row's crate says. The row's
// folders are those of the classes' list. Any row, lists and folder may be given; the kind is judged by the caller.
#![tactic(auto)]

ghost use Rattle.std.specs.Prelude.{◌≡◌, [], length};
ghost use Rattle.vocabulary.specs.Answer.{answer, judge};
ghost use Rattle.cells.specs.Row.{row_lent};
ghost use Rattle.register.specs.Lent.{folders_lent};
ghost use Rattle.response.specs.Response.{response_answer};
ghost use Rattle.row.specs.Row.{ruled};
ghost use Rattle.row_labels.specs.Lent.{row_beside};
ghost use Rattle.log_writer.specs.Reply.{request_of};
ghost use Rattle.row_decision.specs.Decision.{row_checks, served_answer};

use cells::Row;
use ids::{FolderNo, Request};
use log_writer::Tail;
use register::{Labels, Register, RegisterFault};
use response::{Refusal, Response};

// The decision where the lists do not fit the row: 1, but for a row of at most 512 folders 8 and 9 speak first.
fn decide_unfit(row: Row, labels: Labels, size: usize, tail: Tail) -> Response
    ensures { response_answer result ≡ ruled (judge (row_checks (row_beside row labels) size tail.end) (answer 1 [])) }
{
    let length = row.length(labels.classes.len());
    if 512 < length {
        return Err(Refusal::Register(RegisterFault::OutOfRange));
    }
    let large = row.first_above(labels.classes.len());
    if large < length {
        return Err(Refusal::BadCell(FolderNo(large as u16)));
    }
    if tail.end <= size {
        return Err(Refusal::Register(RegisterFault::OutOfRange));
    }
    Err(Refusal::BadEnd)
}

// The decision on a request; `size` is the length of the log's buffer. Whether the lists fit is asked first: where they do, the row's length is known.
pub fn decide_row(
    row: Row,
    register: &Register,
    asked: Request,
    size: usize,
    tail: Tail,
) -> Response
    ensures { response_answer result ≡ ruled (served_answer (folders_lent register.now) (row_lent row (length register.now.labels.classes.now)) (request_of asked) size tail.end) }
{
    let labels = register.labels;
    if !row_labels::lists_fit(row, labels) {
        return decide_unfit(row, labels, size, tail);
    }
    let large = row.first_above(labels.classes.len());
    if large < labels.classes.len() {
        return Err(Refusal::BadCell(FolderNo(large as u16)));
    }
    if size < tail.end {
        return Err(Refusal::BadEnd);
    }
    if register.by_pairs {
        return row::decide_by_pairs(row, labels, register.pairs, asked.folder, asked.kind);
    }
    row::decide_by_classes(row, labels, asked.folder, asked.kind)
}
