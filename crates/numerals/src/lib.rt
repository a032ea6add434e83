// A number in decimal digits, read at a place of a text (document 01, 'The desk program').
#![tactic(auto)]

ghost use Rattle.std.specs.Prelude.{◌≤◌, ◌≡◌, length};
ghost use Rattle.std.specs.Bool.{then_some};
ghost use Rattle.std.specs.List.{prefix_len};
ghost use Rattle.numerals.specs.Numbers.{digits_of, is_digit, is_number, number_at, numeral_of, value_after};

// How many digits a text begins with.
fn digits_len(text: &[u8]) -> usize
    ensures { result ≡ prefix_len is_digit text.now }
{
    text.iter().take_while(|b| b.is_ascii_digit()).count()
}

// The digits that a text begins with.
#[tactic(auto, using(crate::proofs::Digits::digits_taken))]
fn digits_of(text: &[u8]) -> &[u8]
    ensures { result.now ≡ digits_of text.now }
{
    &text[..digits_len(text)]
}

// The number that digits make.
fn value_of(digits: &[u8]) -> u32
    requires { length digits.now ≤ 5 }
    ensures { result ≡ value_after 0 digits.now }
{
    let mut value: u32 = 0;
    for digit in digits {
        value = value * 10 + u32::from(digit.saturating_sub(b'0'));
    }
    value
}

// The number that digits write: one to five of them, no needless leading 0, at most 65,535.
fn number_of(digits: &[u8]) -> Option<u16>
    ensures { result ≡ then_some (is_number digits.now) (value_after 0 digits.now) }
{
    let first = *digits.first()?;
    if 5 < digits.len() || (1 < digits.len() && first == b'0') {
        return None;
    }
    u16::try_from(value_of(digits)).ok()
}

// Reads the number at a place: its value, and the place after it. No number has six digits, so at most six bytes are looked at.
pub fn read_number(text: &[u8], place: usize) -> Option<(u16, usize)>
    ensures { numeral_of result ≡ number_at text.now place }
{
    let rest = text.get(place..)?;
    let digits = digits_of(&rest[..rest.len().min(6)]);
    let value = number_of(digits)?;
    Some((value, place + digits.len()))
}
