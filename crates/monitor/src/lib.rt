// The reference monitor (document 01, 'The four kinds of request' and 'Where each refusal is checked'; document 02, C-12 to C-14).
#![tactic(auto)]

ghost use Rattle.std.specs.Prelude.{◌*◌, ◌<◌, ◌^◌, ◌≡◌};
ghost use Rattle.register.specs.Lent.{register_lent};
ghost use Rattle.policy.specs.Outcome.{outcome, told};
ghost use Rattle.log_writer.specs.Reply.{request_of, lent_log, replied};

use ids::{PersonNo, Request};
use log_writer::{Reply, Tail};
use register::Register;

mod front; // register, matrix and request judged

// Where a person's row starts in the matrix, worked out once: every walk over the row goes on from here.
fn row_start(person: PersonNo, folders: usize) -> usize
    requires { person.0 * folders < 2 ^ 64 }
    ensures { result ≡ person.0 * folders }
{
    usize::from(person.0) * folders
}

// A request, judged by every row of the table, by classes or by pairs, and carried out on the row of the login's person.
pub fn request(
    register: &Register,
    persons: &[u16],
    matrix: &mut [u8],
    asked: Request,
    log: &mut [u8],
    tail: Tail,
) -> Reply
    ensures { replied result matrix.new log.new ≡ told (outcome (register_lent register.now) persons.now matrix.old (request_of asked) (lent_log log tail)) }
{
    if let Err(refusal) = front::judge_front(register, persons, matrix.len(), asked) {
        return Reply {
            response: Err(refusal),
            tail,
        };
    }
    let person = person_list::person_of(persons, asked.login);
    let start = row_start(person, register.labels.classes.len());
    row_request::serve(matrix, start, register, asked, log, tail)
}
