// Rows 1 to 7 of the table, 11 among them after 3 and 10 after 5: register, matrix, request and person list.
ghost use Rattle.std.specs.Prelude.{◌≤◌, ◌≡◌};
ghost use Rattle.register.specs.Lent.{register_lent};
ghost use Rattle.log_writer.specs.Reply.{request_of};
ghost use Rattle.monitor.specs.Front.{four_to_seven, front_answer, one_to_seven};

use ids::Request;
use register::Register;
use response::Refusal;

// Rows 4 to 7, with 10 after 5, once P and F are in range.
fn known(
    logins: usize,
    folders: usize,
    persons: &[u16],
    size: usize,
    asked: Request,
) -> Result<(), Refusal>
    requires { (logins ≤ 128) × (folders ≤ 512) }
    ensures { front_answer result ≡ four_to_seven logins folders persons.now size (request_of asked) }
{
    if size != logins * folders {
        return Err(Refusal::MatrixLength);
    }
    if logins <= usize::from(asked.login.0) {
        return Err(Refusal::UnknownLogin);
    }
    if person_list::bad_persons(logins, persons) {
        return Err(Refusal::BadPersons);
    }
    if folders <= usize::from(asked.folder.0) {
        return Err(Refusal::UnknownFolder);
    }
    if asked.kind < 1 {
        return Err(Refusal::UnknownKind);
    }
    if 4 < asked.kind {
        return Err(Refusal::UnknownKind);
    }
    Ok(())
}

// Rows 1 to 7, 10 and 11; `size` is the matrix's length.
pub(crate) fn judge_front(
    register: &Register,
    persons: &[u16],
    size: usize,
    asked: Request,
) -> Result<(), Refusal>
    ensures { front_answer result ≡ one_to_seven (register_lent register.now) persons.now size (request_of asked) }
{
    register_check::check(register)?;
    known(
        register.logins,
        register.labels.classes.len(),
        persons,
        size,
        asked,
    )
}
