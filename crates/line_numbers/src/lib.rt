// The number of a line of the desk's input, under which it is told (document 01, 'The desk program').
#![tactic(auto)]

ghost use Rattle.std.specs.Prelude.{◌≡◌, ◌==◌, count_by, take};
ghost use Rattle.line_numbers.specs.LineNumber.{line_number};

// How many lines ended before a place.
fn ended_before(text: &[u8], place: usize) -> usize
    ensures { result ≡ count_by (λ b. b == 10) (take place text.now) }
{
    text.iter().take(place).filter(|b| **b == 10).count()
}

// The number of the line at a place, counted from 1.
#[tactic(auto, using(crate::proofs::Ended::ended_count))]
pub fn line_number(text: &[u8], place: usize) -> usize
    ensures { result ≡ line_number text.now place }
{
    ended_before(text, place) + 1
}
