// The library that C and Rust link: each export calls the crate that does the work and returns its answer as a plain record.
// No rule stands here; include/housechervil.h says for callers what each entry means.
#![tactic(auto)]

ghost use Rattle.std.specs.Prelude.{◌≡◌};
ghost use Rattle.audit_log.specs.Reader.{checked, step_at};
ghost use Rattle.names.specs.Name.{name_shown};
ghost use Rattle.packing.specs.CopyOutcome.{packs};
ghost use Rattle.policy.specs.Outcome.{outcome};
ghost use Rattle.policy.specs.Session.{request};
ghost use Rattle.register.specs.Lent.{lent_by, register_lent};
ghost use Rattle.register.specs.Register.{register_answer};
ghost use Rattle.serial.specs.Serial.{compared, following};
ghost use Rattle.unpacking.specs.Unpacks.{unpacks};
ghost use Rattle.varint.specs.Reading.{reading};
ghost use Rattle.housechervil.specs.Records.{by_pairs, copied, lent_at, log_item, number_of, placed_of, register_record, served, served_by};

use ids::{FolderNo, LoginNo, Request};
use log_writer::Tail;
use names::Stretch;
use register::{Labels, Pairs, Register};

mod told; // the answers of the crates as records

// hc_register_answer: the number of the answer and the folders that it carries.
#[repr(C)]
#[derive(Clone, Copy)]
pub struct HcRegisterAnswer {
    pub number: u16,
    pub first: u16,
    pub second: u16,
}

// hc_reply: the number, the folders carried, the write rights taken back by a grant, the log's new end and the next serial.
#[repr(C)]
#[derive(Clone, Copy)]
pub struct HcReply {
    pub number: u16,
    pub first: u16,
    pub second: u16,
    pub count: u16,
    pub end: usize,
    pub serial: u16,
}

// hc_placed: the number, and the place or the number of records that it carries.
#[repr(C)]
#[derive(Clone, Copy)]
pub struct HcPlaced {
    pub number: u16,
    pub value: usize,
}

// hc_log_item: 0 and a record's fields, with the place of its list and the place after it; 1 and the log's length; or a refusal and its
// place.
#[repr(C)]
#[derive(Clone, Copy)]
pub struct HcLogItem {
    pub number: u16,
    pub serial: u16,
    pub login: u16,
    pub folder: u16,
    pub kind: u16,
    pub answer: u16,
    pub count: u16,
    pub list: usize,
    pub place: usize,
}

// hc_number: 0, a number and the place after it; or a refusal and the place of the number's first byte.
#[repr(C)]
#[derive(Clone, Copy)]
pub struct HcNumber {
    pub number: u16,
    pub value: u16,
    pub place: usize,
}

// The register that a caller lends list by list.
fn lend<'a>(
    logins: usize,
    classes: &'a [u16],
    clients: &'a [u16],
    by_pairs: bool,
    firsts: &'a [u16],
    seconds: &'a [u16],
) -> Register<'a>
    ensures { register_lent result ≡ lent_by logins classes clients by_pairs firsts seconds }
{
    Register {
        logins,
        labels: Labels { classes, clients },
        by_pairs,
        pairs: Pairs { firsts, seconds },
    }
}

// The register check. The mode is 0 for classes and anything else for pairs.
#[unsafe(no_mangle)]
pub extern "C" fn hc_register_check(
    logins: usize,
    classes: &[u16],
    clients: &[u16],
    mode: u8,
    firsts: &[u16],
    seconds: &[u16],
) -> HcRegisterAnswer
    ensures { result ≡ register_record (register_answer (lent_by logins classes clients (by_pairs mode) firsts seconds)) }
{
    let by_pairs = mode != 0;
    let register = lend(logins, classes, clients, by_pairs, firsts, seconds);
    HcRegisterAnswer::from(register_check::check(&register))
}

// A request, with the mode as above and the person of each login. Its login and folder get their own types here.
#[unsafe(no_mangle)]
pub extern "C" fn hc_request(
    logins: usize,
    classes: &[u16],
    clients: &[u16],
    mode: u8,
    firsts: &[u16],
    seconds: &[u16],
    persons: &[u16],
    matrix: &mut [u8],
    login: u16,
    folder: u16,
    kind: u16,
    log: &mut [u8],
    end: usize,
    serial: u16,
) -> HcReply
    ensures { served_by result matrix.new log.new ≡ served (outcome (lent_by logins classes clients (by_pairs mode) firsts seconds) persons.now matrix.old (request kind login folder) (lent_at log end serial)) }
{
    let register = lend(logins, classes, clients, mode != 0, firsts, seconds);
    let asked = Request {
        login: LoginNo(login),
        folder: FolderNo(folder),
        kind,
    };
    let tail = Tail { end, serial };
    HcReply::from(monitor::request(&register, persons, matrix, asked, log, tail))
}

// The serial after this one.
#[unsafe(no_mangle)]
pub extern "C" fn hc_serial_next(serial: u16) -> u16
    ensures { result ≡ following 65_536 serial }
{
    serial::next(serial)
}

// Two serials compared: 0 same, 1 first is earlier, 2 undecided, 3 first is later.
#[unsafe(no_mangle)]
pub extern "C" fn hc_serial_compare(first: u16, second: u16) -> u8
    ensures { result ≡ compared 65_536 first second }
{
    told::order(serial::compare(first, second))
}

// Packs `cells` into `packed`.
#[unsafe(no_mangle)]
pub extern "C" fn hc_pack(cells: &[u8], packed: &mut [u8]) -> HcPlaced
    ensures { record { told = result; left = packed.new } ≡ copied (packs cells.now packed.old) }
{
    HcPlaced::from(packing::pack(cells, packed))
}

// Unpacks `packed` into `cells`.
#[unsafe(no_mangle)]
pub extern "C" fn hc_unpack(packed: &[u8], cells: &mut [u8]) -> HcPlaced
    ensures { record { told = result; left = cells.new } ≡ copied (unpacks packed.now cells.old) }
{
    HcPlaced::from(unpacking::unpack(packed, cells))
}

// A step of the log reader at a place.
#[unsafe(no_mangle)]
pub extern "C" fn hc_log_step(log: &[u8], place: usize) -> HcLogItem
    ensures { result ≡ log_item (step_at log.now place) }
{
    HcLogItem::from(log_reader::step_from(log, place).item)
}

// The whole-log check.
#[unsafe(no_mangle)]
pub extern "C" fn hc_log_check(log: &[u8]) -> HcPlaced
    ensures { result ≡ placed_of (checked log.now) }
{
    HcPlaced::from(log_check::check(log))
}

// The number at a place: how a caller walks a record's list.
#[unsafe(no_mangle)]
pub extern "C" fn hc_number_read(log: &[u8], place: usize) -> HcNumber
    ensures { result ≡ number_of (reading 2 3 log.now place) }
{
    HcNumber::from(varint_read::read(log, place))
}

// The name shown for a folder, as a stretch of the client's or of the house's text.
#[unsafe(no_mangle)]
pub extern "C" fn hc_folder_name(client: &[u8], house: &[u8], folder: u16) -> Stretch
    ensures { result ≡ name_shown client.now house.now folder }
{
    names::in_numbers(names::find(client, house, FolderNo(folder)))
}
