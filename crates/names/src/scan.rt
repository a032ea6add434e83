// A text passed over. Blocks of 64 bytes go without a branch inside, so that the compiled code judges many bytes by one instruction.
ghost use Rattle.std.specs.Prelude.{◌≤◌, ◌≡◌, length};
ghost use Rattle.line_numbers.specs.LineNumber.{ended};
ghost use Rattle.names.specs.Scan.{before_break, end_from, least, past, past_from};

// ---- a block

// How many bytes 10 a block has.
// Invariant: it has `n` of them before the byte that comes next.
fn breaks_in(block: &[u8; 64]) -> u8
    ensures { result ≡ ended block.now }
{
    let mut n: u8 = 0;
    for b in block {
        n += u8::from(*b == 10);
    }
    n
}

// The place of the first byte 10 of a block, or 255.
// Invariant: `first` is that of the bytes before i.
fn first_in(block: &[u8; 64]) -> u8
    ensures { result ≡ least block.now 64 }
{
    let mut first: u8 = 255;
    for i in 0u8..64 {
        let place = if block[usize::from(i)] == 10 { i } else { 255 };
        first = first.min(place);
    }
    first
}

// ---- the end of a line

// How many bytes there are before the first byte 10, or in all, byte by byte. What the loop has passed has none.
fn before_break(text: &[u8]) -> usize
    ensures { result ≡ before_break text.now }
{
    for (i, b) in text.iter().enumerate() {
        if *b == 10 {
            return i;
        }
    }
    text.len()
}

// From a place on, the place of the first byte 10, or the text's end, in blocks.
// Invariant: from i on it is the same place.
fn end_blocks(text: &[u8], at: usize) -> usize
    requires { at ≤ length text.now }
    ensures { result ≡ end_from text.now at }
{
    let mut i = at;
    while let Some(block) = text[i..].first_chunk::<64>() {
        let first = first_in(block);
        if first < 64 {
            return i + usize::from(first);
        }
        i += 64;
    }
    i + before_break(&text[i..])
}

// From a place on, the place of the first byte 10, or the text's end. A client's text may have many empty lines: the first byte tells.
pub(crate) fn line_end(text: &[u8], at: usize) -> usize
    requires { at ≤ length text.now }
    ensures { result ≡ end_from text.now at }
{
    if at == text.len() {
        return at;
    }
    if text[at] == 10 {
        return at;
    }
    end_blocks(text, at)
}

// ---- the start of a line

// From a place on, the place behind the n-th byte 10, or the text's end, line by line.
// Invariant: from i on that is the place behind the byte 10 with the number that is left.
fn past_lines(text: &[u8], at: usize, n: u16) -> usize
    requires { at ≤ length text.now }
    ensures { result ≡ past_from text.now at n }
{
    let mut i = at;
    for done in 0..n {
        let end = line_end(text, i);
        if end == text.len() {
            return end;
        }
        i = end + 1;
    }
    i
}

// The place behind the n-th byte 10, or the text's end. Blocks that do not have it are passed over whole.
// Invariant: from i on that is the place behind the byte 10 with the number `left`.
pub(crate) fn line_start(text: &[u8], n: u16) -> usize
    ensures { result ≡ past text.now n }
{
    if n == 0 {
        return 0;
    }
    let mut left = n;
    let mut i = 0;
    while let Some(block) = text[i..].first_chunk::<64>() {
        let here = u16::from(breaks_in(block));
        if left <= here {
            return past_lines(text, i, left);
        }
        left -= here;
        i += 64;
    }
    past_lines(text, i, left)
}
