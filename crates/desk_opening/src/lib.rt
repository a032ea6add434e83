// The input up to its first request, or up to its end (document 01, 'The desk program').
#![tactic(auto)]

ghost use Rattle.std.specs.Prelude.{◌≡◌};
ghost use Rattle.desk_opening.specs.Opened.{opened, opening_of};

pub use opening::Opening;
use text_lines::Text;

mod heading; // the lines before the requests
mod opening; // what the run goes on with

// The input up to its first request, or up to its end: its length, `P n`, the folders, the register's check. Where the run ends there, what is
// printed; where it goes on, nothing is, and the register and the place after its lines are handed back.
pub fn open(text: &[u8]) -> Result<Opening, Text>
    ensures { result ≡ opening_of (opened text.now) }
{
    if 65_536 < text.len() {
        return Err(desk_print::input_too_long());
    }
    heading::from_first(text)
}
