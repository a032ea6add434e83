// The lines before the requests.
ghost use Rattle.std.specs.Prelude.{◌≡◌, ◌||◌, leb, length, set};
ghost use Rattle.desk_lines.specs.Lines.{line_at};
ghost use Rattle.desk_opening.specs.Folders.{Filed, filed_at, is_request, register_filed};
ghost use Rattle.desk_opening.specs.Heading.{Kept, filing_of, folder_of};
ghost use Rattle.desk_opening.specs.Opened.{first_on, opened_on, opened_with, opening_of};

use crate::Opening;
use desk_lines::Line;
use ids::Label;
use register::{Labels, Pairs, Register, RegisterFault};
use text_lines::Text;

// The folders that were filed, with the labels of the first 512, and the place after their lines.
#[derive(Drop)]
struct Filing {
    folders: usize,
    classes: [u16; 512],
    clients: [u16; 512],
    place: usize,
}

// Stores a folder's class or client, if it is one of the first 512: a register with more is refused whatever they are.
fn store(list: &mut [u16], folder: usize, label: u16)
    ensures { list.new ≡ set list.old folder label }
{
    if folder < list.len() {
        list[folder] = label;
    }
}

// The folder that the line at a place gives, and the place after it.
fn folder_at(text: &[u8], place: usize) -> Option<(Label, usize)>
    ensures { result ≡ folder_of (line_at text.now place) }
{
    let (line, next) = desk_lines::read_line(text, place)?;
    match line {
        Line::Folder(label) => Some((label, next)),
        _ => None,
    }
}

// Files the folders from a place on. What the walk has stored are the folders whose lines it has passed.
fn file(text: &[u8], place: usize) -> Filing
    ensures { result ≡ filing_of (filed_at text.now place) }
{
    let mut classes = [0; 512];
    let mut clients = [0; 512];
    let mut folders = 0;
    let mut at = place;
    while let Some((label, next)) = folder_at(text, at) {
        store(&mut classes, folders, label.class.0);
        store(&mut clients, folders, label.client.0);
        folders += 1;
        at = next;
    }
    Filing {
        folders,
        classes,
        clients,
        place: at,
    }
}

// The register's check, by classes, at the place of the first request or at the end.
fn checked(logins: u16, filing: Filing) -> Result<Opening, Text>
    requires { (f : Filed) × Kept f filing }
    ensures { (f : Filed) → Kept f filing → result ≡ opening_of (opened_with (register_filed logins f) f.place) }
{
    let folders = filing.folders;
    if 512 < folders {
        return Err(desk_print::bad_register(Err(RegisterFault::OutOfRange)));
    }
    let logins = usize::from(logins);
    let register = Register {
        logins,
        labels: Labels {
            classes: &filing.classes[..folders],
            clients: &filing.clients[..folders],
        },
        by_pairs: false,
        pairs: Pairs {
            firsts: &[],
            seconds: &[],
        },
    };
    match register_check::check(&register) {
        Ok(()) => Ok(Opening {
            logins,
            folders,
            classes: filing.classes,
            clients: filing.clients,
            place: filing.place,
        }),
        Err(fault) => Err(desk_print::bad_register(Err(fault))),
    }
}

// Whether a request stands at a place, or the text ends there.
fn filing_ends(text: &[u8], place: usize) -> bool
    ensures { result ≡ is_request (line_at text.now place) || leb (length text.now) place }
{
    match desk_lines::read_line(text, place) {
        Some((Line::Request(_), _)) => true,
        _ => text.len() <= place,
    }
}

// From the folders' lines on.
fn from_folders(text: &[u8], logins: u16, place: usize) -> Result<Opening, Text>
    ensures { result ≡ opening_of (opened_on logins text.now (filed_at text.now place)) }
{
    let filing = file(text, place);
    let end = filing.place;
    if filing_ends(text, end) {
        return checked(logins, filing);
    }
    Err(desk_print::bad_line(line_numbers::line_number(text, end)))
}

// From the first line on.
pub(crate) fn from_first(text: &[u8]) -> Result<Opening, Text>
    ensures { result ≡ opening_of (first_on (line_at text.now 0) text.now) }
{
    match desk_lines::read_line(text, 0) {
        Some((Line::Logins(n), next)) => from_folders(text, n, next),
        _ => Err(desk_print::bad_line(1)),
    }
}
