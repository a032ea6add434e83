// A request on the row of the person of the login that asks, judged and carried out: the rows of the table from 8 to 30 (document 01, 'Where each
// refusal is checked'; document 02, C-14). The row is given by the matrix and its start; its folders are those of the classes' list. Any row, register
// and folder may be given: what does not fit gets 1, 11 or 6. The kind is judged by the caller.
#![tactic(auto)]

ghost use Rattle.std.specs.Prelude.{◌≡◌};
ghost use Rattle.register.specs.Lent.{folders_lent};
ghost use Rattle.log_writer.specs.Reply.{request_of, lent_log, replied};
ghost use Rattle.row_request.specs.Served.{served_at};

use cells::Row;
use ids::Request;
use log_writer::{Reply, Tail};
use register::Register;
use response::Refusal;

mod grant; // a grant carried out: the record, then the row

// A request on a row, judged and carried out.
pub fn serve(
    matrix: &mut [u8],
    start: usize,
    register: &Register,
    asked: Request,
    log: &mut [u8],
    tail: Tail,
) -> Reply
    ensures { replied result matrix.new log.new ≡ served_at (folders_lent register.now) matrix.old start (request_of asked) (lent_log log tail) }
{
    let row = Row {
        matrix: &*matrix,
        start,
    };
    match row_decision::decide_row(row, register, asked, log.len(), tail) {
        Ok(_) => grant::grant(matrix, start, register.labels, asked, log, tail),
        Err(refusal) => match refusal {
            Refusal::Wall(by_wall) => log_writer::log_refusal(log, tail, asked, by_wall),
            _ => Reply {
                response: Err(refusal),
                tail,
            },
        },
    }
}
