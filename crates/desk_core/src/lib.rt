// The desk's text interface over the monitor (document 01, 'The desk program'). The output is printed in steps: `desk_opening::open` takes
// the input up to its first request, and `step` one line after the other from there.
#![tactic(auto)]

ghost use Rattle.std.specs.Prelude.{◌≡◌};
ghost use Rattle.register.specs.Register.{register_of};
ghost use Rattle.log_writer.specs.Reply.{log_of};
ghost use Rattle.desk_lines.specs.Lines.{line_at};
ghost use Rattle.text_lines.specs.Text.{text_of};
ghost use Rattle.desk_core.specs.Output.{ending};
ghost use Rattle.desk_core.specs.Step.{left, left_by, request_of, stepped};

use desk_lines::Line;
use ids::Request;
use log_writer::Tail;
use register::{Labels, Pairs, Register};
use text_lines::Text;

// What a step prints, whether the run goes on, and the place and the log's tail with which it does.
#[derive(Drop)]
pub struct Progress {
    pub text: Text,
    pub onward: bool,
    pub place: usize,
    pub tail: Tail,
}

// What ends the run at a place: nothing at the text's end, else a line that is ill-formed or misplaced.
fn ending(text: &[u8], place: usize) -> Text
    ensures { result ≡ text_of (ending text.now place) }
{
    if text.len() <= place {
        return text_lines::nothing();
    }
    desk_print::bad_line(line_numbers::line_number(text, place))
}

// The request that the line at a place asks for, and the place after it.
fn request_at(text: &[u8], place: usize) -> Option<(Request, usize)>
    ensures { result ≡ request_of (line_at text.now place) }
{
    let (line, next) = desk_lines::read_line(text, place)?;
    match line {
        Line::Request(asked) => Some((asked, next)),
        _ => None,
    }
}

// The line at a place, after the opening. A request is asked of the monitor, by classes, with this person list, and its answer printed; anything else
// ends the run, with `line n 40` unless the input ends there.
pub fn step(
    text: &[u8],
    place: usize,
    logins: usize,
    labels: Labels,
    persons: &[u16],
    matrix: &mut [u8],
    log: &mut [u8],
    tail: Tail,
) -> Progress
    ensures { left result matrix.new log.new ≡ left_by (stepped text.now (register_of logins labels.entry.classes.now labels.entry.clients.now) persons.now place matrix.old (log_of log.old tail)) }
{
    let Some((asked, next)) = request_at(text, place) else {
        return Progress {
            text: ending(text, place),
            onward: false,
            place,
            tail,
        };
    };
    let register = Register {
        logins,
        labels,
        by_pairs: false,
        pairs: Pairs {
            firsts: &[],
            seconds: &[],
        },
    };
    let reply = monitor::request(&register, persons, matrix, asked, log, tail);
    Progress {
        text: desk_answers::answer_line(reply.response, log, tail.end),
        onward: true,
        place: next,
        tail: reply.tail,
    }
}
