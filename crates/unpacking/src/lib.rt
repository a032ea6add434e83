// Packed cells, unpacked (document 01, 'The matrix').
#![tactic(auto)]

ghost use Rattle.std.specs.Prelude.{◌≡◌, ◌≤◌, ◌<◌, length};
ghost use Rattle.packing.specs.CopyOutcome.{copy_outcome};
ghost use Rattle.packing.specs.Cut.{filled};
ghost use Rattle.packing.specs.Packed.{quarter};
ghost use Rattle.unpacking.specs.Answers.{unpacking};
ghost use Rattle.unpacking.specs.Unpacked.{from, cell_at, unpacked, unused};
ghost use Rattle.unpacking.specs.Unpacks.{unpacks};

// The refusals of unpacking: 62, unused bits of the last byte are set; 61, the lengths don't match.
#[derive(Clone, Copy, PartialEq, Eq)]
pub enum UnpackError {
    UnusedSet,
    Unequal,
}

// What a byte has from its cell j on, j from 0 to 3.
fn from_cell(byte: u8, j: usize) -> u8
    requires { j < 4 }
    ensures { result ≡ from byte j }
{
    byte >> (2 * j)
}

// The unused bits of the last byte of `count` cells; 0 where it has none.
fn unused_bits(bytes: &[u8], count: usize) -> u8
    ensures { result ≡ unused count bytes.now }
{
    from_cell(bytes.get(count / 4).copied().unwrap_or(0), count % 4)
}

// Writes the cells from place `start` on, one by one.
// Invariant: the first i cells are written.
fn write_rest(bytes: &[u8], cells: &mut [u8], start: usize)
    requires { (length bytes.now ≡ quarter (length cells.old)) × (start ≤ length cells.old) × (cells.old ≡ filled (cell_at bytes.now) start cells.old) }
    ensures { cells.new ≡ unpacked (length cells.old) bytes.now }
{
    for i in start..cells.len() {
        cells[i] = from_cell(bytes[i / 4], i % 4) % 4;
    }
}

// Writes the cells: four from each byte, then those of a byte that has fewer.
// Invariant: the cells of the first k bytes are written.
fn write_cells(bytes: &[u8], cells: &mut [u8])
    requires { length bytes.now ≡ quarter (length cells.old) }
    ensures { cells.new ≡ unpacked (length cells.old) bytes.now }
{
    let whole = cells.len() / 4;
    for k in 0..whole {
        let byte = bytes[k];
        let i = 4 * k;
        cells[i] = byte % 4;
        cells[i + 1] = byte / 4 % 4;
        cells[i + 2] = byte / 16 % 4;
        cells[i + 3] = byte / 64 % 4;
    }
    write_rest(bytes, cells, 4 * whole);
}

// Unpacks `packed` into `cells`; a refusal leaves `cells` as they were.
pub fn unpack(packed: &[u8], cells: &mut [u8]) -> Result<(), UnpackError>
    ensures { copy_outcome (unpacking result) cells.new ≡ unpacks packed.now cells.old }
{
    if cells.len().div_ceil(4) != packed.len() {
        return Err(UnpackError::Unequal);
    }
    if unused_bits(packed, cells.len()) != 0 {
        return Err(UnpackError::UnusedSet);
    }
    write_cells(packed, cells);
    Ok(())
}
