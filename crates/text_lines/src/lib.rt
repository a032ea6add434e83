// Lines of words and numbers, each printed as a text of its own.
#![tactic(auto)]

ghost use Rattle.std.specs.Prelude.{◌+◌, ◌≤◌, ◌≡◌, [], ◌++◌, length};
ghost use Rattle.text_lines.specs.Text.{bounded, text_of};

pub use text::Text;

mod text; // a printed text, and how it grows

// Nothing printed.
pub fn nothing() -> Text
    ensures { result ≡ text_of [] }
{
    Text::new()
}

// The line of a word with its space, or neither, a number and the numbers after it; nothing, if a text may have no room for it.
pub fn line(word: &[u8], number: usize, rest: &[u16]) -> Text
    ensures { result ≡ text_of (bounded word.now number rest.now) }
{
    let mut text = Text::new();
    if 64 < word.len() || 512 < rest.len() {
        return text;
    }
    text.push_word(word);
    text.push_number(number);
    text.push_rest(rest);
    text.push(b'\n');
    text
}
