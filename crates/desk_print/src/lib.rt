// The lines that the desk prints of its input and of what is not logged (document 01, 'The desk program'), each as a text of its own.
#![tactic(auto)]

ghost use Rattle.std.specs.Prelude.{◌≡◌};
ghost use Rattle.register_check.specs.Verdict.{verdict_answer};
ghost use Rattle.text_lines.specs.Text.{text_of};
ghost use Rattle.desk_print.specs.Lines.{bad_line, bad_register, dash_text, input_too_long};

use register_check::RegisterFault;
use text_lines::{Text, line};

// `input 41`
pub fn input_too_long() -> Text
    ensures { result ≡ text_of input_too_long }
{
    line(b"input ", 41, &[])
}

// `line n 40`
pub fn bad_line(n: usize) -> Text
    ensures { result ≡ text_of (bad_line n) }
{
    line(b"line ", n, &[40])
}

// `register`, the number and the folders carried.
pub fn bad_register(verdict: Result<(), RegisterFault>) -> Text
    ensures { result ≡ text_of (bad_register (verdict_answer verdict)) }
{
    match verdict {
        Ok(()) => line(b"register ", 0, &[]),
        Err(RegisterFault::OutOfRange) => line(b"register ", 1, &[]),
        Err(RegisterFault::LoneZero(f)) => line(b"register ", 2, &[f.0]),
        Err(RegisterFault::TwoClasses(f, g)) => line(b"register ", 3, &[f.0, g.0]),
        Err(RegisterFault::BadPairs) => line(b"register ", 11, &[]),
    }
}

// `-` and the number of a request that was not logged.
pub fn dash_line(number: u16) -> Text
    ensures { result ≡ text_of (dash_text number) }
{
    line(b"- ", usize::from(number), &[])
}
