// Runs document 01's numbers through `varint_write` and `varint_read`: each one's bytes, readings with their answers (number, then what it
// carries), and how many of the 65,536 numbers come back from their bytes.
#![tactic(auto)]

use std::io;
use varint_read::NumberFault;
use varint_write::NoRoom;

fn main(rt: HostRuntime) -> io::Result<()> {
    show_written(&rt, 0)?;
    show_written(&rt, 127)?;
    show_written(&rt, 128)?;
    show_written(&rt, 300)?;
    show_written(&rt, 16383)?;
    show_written(&rt, 16384)?;
    show_written(&rt, 65535)?;

    show_read(&rt, &[127], 0)?;
    show_read(&rt, &[128, 1], 0)?;
    show_read(&rt, &[172, 2], 0)?;
    show_read(&rt, &[128, 128, 1], 0)?;
    show_read(&rt, &[255, 255, 3], 0)?;
    show_read(&rt, &[9, 172, 2, 9], 1)?;
    // cut: in the number, at its start, past the end
    show_read(&rt, &[9, 128, 128], 1)?;
    show_read(&rt, &[9], 1)?;
    show_read(&rt, &[9], 3)?;
    // not shortest
    show_read(&rt, &[9, 128, 0], 1)?;
    show_read(&rt, &[9, 128, 128, 0], 1)?;
    // above 65,535, at once
    show_read(&rt, &[9, 255, 255, 4], 1)?;
    show_read(&rt, &[9, 255, 255, 131], 1)?;

    // no room, by one byte and by a place past the end
    show_room(&rt, &mut [0; 2], 0, 65535)?;
    show_room(&rt, &mut [0; 3], 0, 65535)?;
    show_room(&rt, &mut [0; 3], 3, 0)?;
    show_room(&rt, &mut [0; 3], 18446744073709551615, 0)?;

    print(&rt, count_returning() as u64, '\n')
}

// A number, a colon and its bytes.
fn show_written(rt: &impl Print, n: u16) -> io::Result<()> {
    let mut out = [0u8; 3];
    print(rt, n as u64, ':')?;
    let answer = varint_write::write(&mut out, 0, n);
    let Ok(next) = answer else {
        return Ok(());
    };
    show_bytes(rt, &out, next)
}

// The first bytes of a list, on a line.
fn show_bytes(rt: &impl Print, s: &[u8], n: usize) -> io::Result<()> {
    for b in s.iter().take(n) {
        print_byte(rt, *b)?;
    }
    print_end(rt)
}

fn show_read(rt: &impl Print, s: &[u8], at: usize) -> io::Result<()> {
    match varint_read::read(s, at) {
        Ok((value, next)) => {
            print(rt, 0, ' ')?;
            print(rt, u64::from(value), ' ')?;
            print(rt, next as u64, '\n')
        }
        Err(fault) => {
            let (number, place) = match fault {
                NumberFault::Cut(place) => (51, place),
                NumberFault::Bad(place) => (52, place),
            };
            print(rt, number, ' ')?;
            print(rt, place as u64, '\n')
        }
    }
}

fn show_room(rt: &impl Print, out: &mut [u8], at: usize, n: u16) -> io::Result<()> {
    let answer = varint_write::write(out, at, n);
    match answer {
        Ok(next) => {
            print(rt, 0, ' ')?;
            print(rt, next as u64, '\n')
        }
        Err(NoRoom) => print(rt, 30, '\n'),
    }
}

// How many numbers are read back from their bytes, with the place after them.
fn count_returning() -> usize {
    (0..=u16::MAX).filter(|n| returns(*n)).count()
}

fn returns(n: u16) -> bool {
    let mut out = [0u8; 3];
    let written = varint_write::write(&mut out, 0, n);
    let Ok(end) = written else {
        return false;
    };
    (varint_read::read(&out, 0) == Ok((n, end))) & (varint_write::length(n) == end)
}

fn print(rt: &impl Print, n: u64, after: char) -> io::Result<()> {
    print!(rt; "{n}{after}")
}

fn print_byte(rt: &impl Print, b: u8) -> io::Result<()> {
    print!(rt; " {b}")
}

fn print_end(rt: &impl Print) -> io::Result<()> {
    println!(rt)
}
