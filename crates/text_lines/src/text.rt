// A printed text, which grows at its end.
ghost use Rattle.std.specs.Prelude.{◌+◌, ◌*◌, ◌<◌, ◌≤◌, ◌≡◌, [], ◌∷◌, ◌++◌, length};
ghost use Rattle.text_lines.specs.Text.{decimal, spaced};

use std::marker::Model;

// A printed text: its bytes from the start of the buffer, zeros after them. Clauses see the text's bytes.
#[derive(Drop)]
pub struct Text {
    bytes: [u8; 4096],
    len: usize,
}

impl Model for Text {
    ghost use Rattle.std.specs.Prelude.{ℕ, ◌≤◌, ◌≡◌, List, take, replicate};
    ghost use Rattle.std.proofs.lemmas.List.Edits.{sets};

    ghost Value = { List ℕ };

    ghost view = { λ t. take t.len t.bytes };

    ghost invariant = { λ t. (t.len ≤ 4096) × (t.bytes ≡ sets (replicate 4096 0) 0 (take t.len t.bytes)) };
}

impl Text {
    // Nothing printed.
    pub(crate) fn new() -> Text
        ensures { result ≡ [] }
    {
        Text {
            bytes: [0; 4096],
            len: 0,
        }
    }

    // The bytes that were printed.
    pub fn as_bytes(&self) -> &[u8]
        ensures { result.now ≡ self.now }
    {
        &self.bytes[..self.len]
    }

    // Prints a byte.
    pub(crate) fn push(&mut self, byte: u8)
        requires { length self.old < 4096 }
        ensures { self.new ≡ self.old ++ byte ∷ [] }
    {
        self.bytes[self.len] = byte;
        self.len += 1;
    }

    // Prints a word.
    pub(crate) fn push_word(&mut self, word: &[u8])
        requires { length self.old + length word.now ≤ 4096 }
        ensures { self.new ≡ self.old ++ word.now }
    {
        for byte in word {
            self.push(*byte);
        }
    }

    // Prints a number.
    pub(crate) fn push_number(&mut self, n: usize)
        requires { length self.old + length (decimal n) ≤ 4096 }
        ensures { self.new ≡ self.old ++ decimal n }
    {
        if 10 <= n {
            self.push_number(n / 10);
        }
        self.push(b'0' + (n % 10) as u8);
    }

    // Prints numbers, each after one space: at most 6 bytes, since they are numbers of 16 bits.
    pub(crate) fn push_rest(&mut self, numbers: &[u16])
        requires { length self.old + 6 * length numbers.now ≤ 4096 }
        ensures { (self.new ≡ self.old ++ spaced numbers.now) × (length self.new ≤ length self.old + 6 * length numbers.now) }
    {
        for n in numbers {
            self.push(b' ');
            self.push_number(usize::from(*n));
        }
    }
}
