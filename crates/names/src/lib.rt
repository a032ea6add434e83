// Names on the board (document 02, C-11): of two texts of folder names, the client's and the house's, the line that names a folder.
#![tactic(auto)]

ghost use Rattle.std.specs.Prelude.{◌+◌, ◌≤◌, ◌≡◌, length};
ghost use Rattle.names.specs.Lines.{line_span};
ghost use Rattle.names.specs.Name.{name_answer, name_shown, stretch_of};
ghost use Rattle.names.specs.Part.{name_part, part_of};
ghost use Rattle.names.specs.Scan.{cut};

use ids::FolderNo;

mod scan; // a text passed over, in blocks

// Where a line lies in a text: the place at which it begins, and how many bytes it has.
#[derive(Clone, Copy, PartialEq, Eq)]
pub struct Span {
    pub place: usize,
    pub length: usize,
}

// Where the name of a folder lies: the client's line, or the house's, each not empty.
#[derive(Clone, Copy, PartialEq, Eq)]
pub enum Name {
    Client(Span),
    House(Span),
}

// An answer in numbers: 0 or 81; the text, 0 for the client's and 1 for the house's; the place in it, and how many bytes.
#[repr(C)]
#[derive(Clone, Copy)]
pub struct Stretch {
    pub number: u16,
    pub text: u16,
    pub place: usize,
    pub length: usize,
}

// Where a folder's line lies in a text. In a text that is too short it is empty, at the end.
pub fn line_span(text: &[u8], folder: FolderNo) -> Span
    ensures { result ≡ line_span text.now folder.0 }
{
    let start = scan::line_start(text, folder.0);
    let end = scan::line_end(text, start);
    Span {
        place: start,
        length: end - start,
    }
}

// Where the name of a folder lies: the client's line if it is not empty, otherwise the house's if that is not; 81, neither has one.
pub fn find(client: &[u8], house: &[u8], folder: FolderNo) -> Option<Name>
    ensures { name_answer result ≡ name_shown client.now house.now folder.0 }
{
    let own = line_span(client, folder);
    if own.length != 0 {
        return Some(Name::Client(own));
    }
    let line = line_span(house, folder);
    if line.length != 0 {
        return Some(Name::House(line));
    }
    None
}

// A line of a text, as a part of it.
fn part(text: &[u8], span: Span) -> &[u8]
    requires { span.place + span.length ≤ length text.now }
    ensures { part_of result ≡ cut (part_of text.entry) span.place span.length }
{
    let start = span.place;
    let end = start + span.length;
    &text[start..end]
}

// The name of a folder: a part of the client's or of the house's text, nothing copied. At 81 it is empty.
pub fn folder_name<'a>(client: &'a [u8], house: &'a [u8], folder: FolderNo) -> &'a [u8]
    ensures { part_of result ≡ name_part (part_of client.entry) (part_of house.entry) folder.0 }
{
    match find(client, house, folder) {
        Some(Name::Client(span)) => part(client, span),
        Some(Name::House(span)) => part(house, span),
        None => &client[0..0],
    }
}

// A name of the text that has this number.
fn of_text(text: u16, span: Span) -> Stretch
    ensures { result ≡ stretch_of text span }
{
    Stretch {
        number: 0,
        text,
        place: span.place,
        length: span.length,
    }
}

// An answer in numbers.
pub fn in_numbers(name: Option<Name>) -> Stretch
    ensures { result ≡ name_answer name }
{
    match name {
        Some(Name::Client(span)) => of_text(0, span),
        Some(Name::House(span)) => of_text(1, span),
        None => Stretch {
            number: 81,
            text: 0,
            place: 0,
            length: 0,
        },
    }
}
