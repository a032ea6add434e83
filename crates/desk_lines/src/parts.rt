// The parts of a line, read at a place: a space and a number, and the line's end.
ghost use Rattle.std.specs.Prelude.{ℕ, ◌≡◌};
ghost use Rattle.numerals.specs.Numbers.{numeral_of};
ghost use Rattle.desk_lines.specs.Lines.{Line, byte_of, expected, last_at, or_ill, pair_at, pair_line, part_at};

// Reads this byte, and gives the place after it.
#[tactic(auto, unfolding(crate::specs::Lines::expected))]
fn read_byte(text: &[u8], place: usize, byte: u8) -> Option<usize>
    ensures { byte_of byte result ≡ expected byte text.now place }
{
    (*text.get(place)? == byte).then_some(place + 1)
}

// Reads one space and a number.
fn read_part(text: &[u8], place: usize) -> Option<(u16, usize)>
    ensures { numeral_of result ≡ part_at text.now place }
{
    let at = read_byte(text, place, b' ')?;
    numerals::read_number(text, at)
}

// Reads one space, a number and the line's end.
pub(crate) fn read_last(text: &[u8], place: usize) -> Option<(u16, usize)>
    ensures { numeral_of result ≡ last_at text.now place }
{
    let (n, end) = read_part(text, place)?;
    let next = read_byte(text, end, b'\n')?;
    Some((n, next))
}

// Reads the two numbers that end a line.
pub(crate) fn read_pair(text: &[u8], place: usize) -> Option<(u16, u16, usize)>
    ensures { (make : ℕ → ℕ → ℕ → Line) → pair_line make result ≡ or_ill (pair_at text.now place make) }
{
    let (first, second) = read_part(text, place)?;
    let (last, next) = read_last(text, second)?;
    Some((first, last, next))
}
