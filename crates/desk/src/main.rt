// The desk (document 01, 'The desk program'): standard input to `desk_opening` and `desk_core` to standard output, nothing else.
#![tactic(auto)]

ghost use Rattle.std.specs.Prelude.{◌≤◌, length, IfOk};

use desk_opening::Opening;
use log_writer::Tail;
use register::Labels;
use std::io;
use std::io::Read;

fn main(rt: HostRuntime) -> io::Result<()> {
    // one byte more than the desk takes, so that a longer input is seen to be one
    let mut input = [0u8; 65537];
    let n = read_full(&mut rt.stdin(), &mut input)?;
    match desk_opening::open(&input[..n]) {
        Ok(opening) => serve(&rt, &input[..n], &opening),
        Err(ended) => rt.write_all(ended.as_bytes()),
    }
}

// Fills the buffer from the input, as far as there is some: how many bytes were read. A short read is gone on with.
fn read_full(input: &mut impl Read, bytes: &mut [u8]) -> io::Result<usize>
    ensures { IfOk result (λ n. n ≤ length bytes.new) }
{
    let mut n = 0;
    while n < bytes.len() {
        let got = input.read(&mut bytes[n..])?;
        if got == 0 {
            break;
        }
        n += got;
    }
    Ok(n)
}

// The requests, with each login its own person, a blank matrix of P times F cells and an empty log.
fn serve(rt: &impl Print, input: &[u8], opening: &Opening) -> io::Result<()> {
    let logins = opening.logins();
    let labels = Labels {
        classes: opening.classes(),
        clients: opening.clients(),
    };
    let persons = person_list::own_numbers();
    let mut matrix = [0u8; 65536];
    let mut log = [0u8; 65536];
    run(
        rt,
        input,
        opening.place(),
        logins,
        labels,
        &persons[..logins],
        &mut matrix[..logins * labels.classes.len()],
        &mut log,
    )
}

// Step after step, until the run is over or the output takes no more. One step more than the input has bytes is enough: every line has
// bytes, and one step finds the end.
fn run(
    rt: &impl Print,
    input: &[u8],
    place: usize,
    logins: usize,
    labels: Labels,
    persons: &[u16],
    matrix: &mut [u8],
    log: &mut [u8],
) -> io::Result<()> {
    let mut at = place;
    let mut tail = Tail { end: 0, serial: 0 };
    for _ in 0..=input.len() {
        let progress = desk_core::step(input, at, logins, labels, persons, matrix, log, tail);
        rt.write_all(progress.text.as_bytes())?;
        if !progress.onward {
            return Ok(());
        }
        at = progress.place;
        tail = progress.tail;
    }
    Ok(())
}
