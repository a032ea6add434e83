// Cells packed four to a byte (document 01, 'The matrix').
#![tactic(auto)]

ghost use Rattle.std.specs.Prelude.{◌≡◌, ◌+◌, ◌*◌, ◌≤◌, ◌<◌, length, get_or};
ghost use Rattle.packing.specs.Cut.{AllCells};
ghost use Rattle.packing.specs.Packed.{quarter, byte_of, byte_at, packed};
ghost use Rattle.packing.specs.CopyOutcome.{copy_outcome, packs};
ghost use Rattle.packing.specs.Answers.{packing};

// The refusals of packing: 60 with the place of the first cell above 3; 61, the lengths don't match.
#[derive(Clone, Copy, PartialEq, Eq)]
pub enum PackError {
    CellAbove(usize),
    Unequal,
}

// Four cells in a byte, the first in the lowest two bits. The four make a word, which a compiler can read at once where they lie in a row; one
// multiplication, by 2^24 + 2^18 + 2^12 + 2^6, brings their bits together from bit 24 on.
fn byte_of(a: u8, b: u8, c: u8, d: u8) -> u8
    requires { (a ≤ 3) × (b ≤ 3) × (c ≤ 3) × (d ≤ 3) }
    ensures { result ≡ byte_of a b c d }
{
    let word = a as u64 + 256 * (b as u64) + 65_536 * (c as u64) + 16_777_216 * (d as u64);
    (17_043_520 * word / 16_777_216 % 256) as u8
}

// What stands at a place; 0 past the end.
fn at_or_0(bytes: &[u8], i: usize) -> u8
    ensures { result ≡ get_or bytes.now i 0 }
{
    bytes.get(i).copied().unwrap_or(0)
}

// Byte k of the packed form, of four cells that are there.
fn whole_byte(cells: &[u8], k: usize) -> u8
    requires { (4 * k + 3 < length cells.now) × AllCells cells.now }
    ensures { result ≡ byte_at cells.now k }
{
    let i = 4 * k;
    byte_of(cells[i], cells[i + 1], cells[i + 2], cells[i + 3])
}

// Byte k of the packed form, where cells may be lacking.
fn last_byte(cells: &[u8], k: usize) -> u8
    requires { (4 * k < length cells.now) × AllCells cells.now }
    ensures { result ≡ byte_at cells.now k }
{
    let i = 4 * k;
    byte_of(
        cells[i],
        at_or_0(cells, i + 1),
        at_or_0(cells, i + 2),
        at_or_0(cells, i + 3),
    )
}

// Writes the packed form: the bytes of four cells each, then a last one if cells are left.
// Invariant: the first k bytes are written.
fn write_bytes(cells: &[u8], bytes: &mut [u8])
    requires { (length bytes.old ≡ quarter (length cells.now)) × AllCells cells.now }
    ensures { bytes.new ≡ packed cells.now }
{
    let whole = cells.len() / 4;
    for k in 0..whole {
        bytes[k] = whole_byte(cells, k);
    }
    if whole < bytes.len() {
        bytes[whole] = last_byte(cells, whole);
    }
}

// Packs `cells` into `packed`; a refusal leaves `packed` as it was.
pub fn pack(cells: &[u8], packed: &mut [u8]) -> Result<(), PackError>
    ensures { copy_outcome (packing result) packed.new ≡ packs cells.now packed.old }
{
    if packed.len() != cells.len().div_ceil(4) {
        return Err(PackError::Unequal);
    }
    let above = cells::first_above(cells);
    if above < cells.len() {
        return Err(PackError::CellAbove(above));
    }
    write_bytes(cells, packed);
    Ok(())
}
