// The lines of the desk's input (document 01, 'The desk program'): the line at a place.
#![tactic(auto)]

ghost use Rattle.std.specs.Prelude.{◌≡◌, ltb};
ghost use Rattle.std.specs.Bool.{then_some};
ghost use Rattle.desk_lines.specs.Lines.{kind_of, line_at, line_of};

use ids::{ClassNo, ClientNo, FolderNo, Label, LoginNo, Request};

mod parts; // the parts of a line, read

// A line of the input.
#[derive(Clone, Copy)]
pub enum Line {
    Logins(u16),
    Folder(Label),
    Request(Request),
}

// The kind that a letter asks for, if it asks for one.
fn kind_of(letter: u8) -> Option<u16>
    ensures { result ≡ then_some (ltb 0 (kind_of letter)) (kind_of letter) }
{
    match letter {
        b'R' => Some(1),
        b'C' => Some(2),
        b'W' => Some(3),
        b'B' => Some(4),
        _ => None,
    }
}

// Reads the line at a place, and gives the place after it too.
pub fn read_line(text: &[u8], place: usize) -> Option<(Line, usize)>
    ensures { line_of result ≡ line_at text.now place }
{
    let letter = *text.get(place)?;
    if letter == b'P' {
        let (n, next) = parts::read_last(text, place + 1)?;
        return Some((Line::Logins(n), next));
    }
    if letter == b'F' {
        let (class, client, next) = parts::read_pair(text, place + 1)?;
        let label = Label::new(ClassNo(class), ClientNo(client));
        return Some((Line::Folder(label), next));
    }
    let kind = kind_of(letter)?;
    let (login, folder, next) = parts::read_pair(text, place + 1)?;
    let asked = Request {
        login: LoginNo(login),
        folder: FolderNo(folder),
        kind,
    };
    Some((Line::Request(asked), next))
}
