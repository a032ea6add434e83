// The answers of the crates as records of numbers. Values that an answer does not carry are 0.
ghost use Rattle.std.specs.Prelude.{◌≡◌};
ghost use Rattle.log_check.specs.Answers.{checked_answer};
ghost use Rattle.log_fields.specs.Answers.{fault_answer};
ghost use Rattle.log_records.specs.Item.{entry_of, item_of};
ghost use Rattle.packing.specs.Answers.{packing};
ghost use Rattle.register_check.specs.Verdict.{verdict_answer};
ghost use Rattle.response.specs.Response.{response_answer};
ghost use Rattle.serial.specs.Number.{number};
ghost use Rattle.unpacking.specs.Answers.{unpacking};
ghost use Rattle.varint_read.specs.Decoded.{decoded_answer};
ghost use Rattle.housechervil.specs.Records.{entry_item, log_item, number_of, placed_item, placed_of, register_record, reply_of};

use crate::{HcLogItem, HcNumber, HcPlaced, HcRegisterAnswer, HcReply};
use audit_log::{Entry, Step};
use log_fields::Fault;
use log_writer::Reply;
use packing::PackError;
use register::RegisterFault;
use response::Numbers;
use std::cmp::Ordering;
use unpacking::UnpackError;
use varint_read::NumberFault;

// ---- the register

// An answer of the register check and the folders that it carries.
fn folders(number: u16, first: u16, second: u16) -> HcRegisterAnswer
    ensures { result ≡ record { number = number; first = first; second = second } }
{
    HcRegisterAnswer {
        number,
        first,
        second,
    }
}

impl From<Result<(), RegisterFault>> for HcRegisterAnswer {
    ghost from_gives = { λ v r. r ≡ register_record (verdict_answer v) };

    fn from(v: Result<(), RegisterFault>) -> HcRegisterAnswer {
        match v {
            Ok(()) => folders(0, 0, 0),
            Err(RegisterFault::OutOfRange) => folders(1, 0, 0),
            Err(RegisterFault::LoneZero(f)) => folders(2, f.0, 0),
            Err(RegisterFault::TwoClasses(f, g)) => folders(3, f.0, g.0),
            Err(RegisterFault::BadPairs) => folders(11, 0, 0),
        }
    }
}

// ---- the request

impl From<Reply> for HcReply {
    ghost from_gives = { λ r h. h ≡ reply_of (response_answer r.response) r.tail.end r.tail.serial };

    fn from(reply: Reply) -> HcReply {
        let Reply { response, tail } = reply;
        let n = Numbers::from(response);
        HcReply {
            number: n.number,
            first: n.first,
            second: n.second,
            count: n.count,
            end: tail.end,
            serial: tail.serial,
        }
    }
}

// ---- serials

pub(crate) fn order(o: Option<Ordering>) -> u8
    ensures { result ≡ number o }
{
    match o {
        Some(Ordering::Equal) => 0,
        Some(Ordering::Less) => 1,
        None => 2,
        Some(Ordering::Greater) => 3,
    }
}

// ---- packed cells and the log

// An answer and the one value that it carries.
fn placed(number: u16, value: usize) -> HcPlaced
    ensures { result ≡ record { number = number; value = value } }
{
    HcPlaced { number, value }
}

impl From<Result<(), PackError>> for HcPlaced {
    ghost from_gives = { λ p r. r ≡ placed_of (packing p) };

    fn from(p: Result<(), PackError>) -> HcPlaced {
        match p {
            Ok(()) => placed(0, 0),
            Err(PackError::CellAbove(place)) => placed(60, place),
            Err(PackError::Unequal) => placed(61, 0),
        }
    }
}

impl From<Result<(), UnpackError>> for HcPlaced {
    ghost from_gives = { λ u r. r ≡ placed_of (unpacking u) };

    fn from(u: Result<(), UnpackError>) -> HcPlaced {
        match u {
            Ok(()) => placed(0, 0),
            Err(UnpackError::UnusedSet) => placed(62, 0),
            Err(UnpackError::Unequal) => placed(61, 0),
        }
    }
}

// A refusal of the reader and its place.
impl From<Fault> for HcPlaced {
    ghost from_gives = { λ f r. r ≡ placed_of (fault_answer f) };

    fn from(f: Fault) -> HcPlaced {
        match f {
            Fault::PastEnd(place) => placed(50, place),
            Fault::Cut(place) => placed(51, place),
            Fault::BadForm(place) => placed(52, place),
            Fault::OutOfRange(place) => placed(53, place),
            Fault::BadList(place) => placed(54, place),
            Fault::OutOfTurn(place) => placed(55, place),
        }
    }
}

impl From<Result<usize, Fault>> for HcPlaced {
    ghost from_gives = { λ c r. r ≡ placed_of (checked_answer c) };

    fn from(c: Result<usize, Fault>) -> HcPlaced {
        match c {
            Ok(n) => placed(0, n),
            Err(f) => HcPlaced::from(f),
        }
    }
}

impl From<Entry> for HcLogItem {
    ghost from_gives = { λ e r. r ≡ entry_item (entry_of e) };

    fn from(e: Entry) -> HcLogItem {
        HcLogItem {
            number: 0,
            serial: e.serial,
            login: e.login.0,
            folder: e.folder.0,
            kind: e.kind,
            answer: e.answer,
            count: e.count,
            list: e.list,
            place: e.next,
        }
    }
}

// An item that carries a place alone.
fn no_record(number: u16, place: usize) -> HcLogItem
    ensures { result ≡ placed_item number place }
{
    HcLogItem {
        number,
        serial: 0,
        login: 0,
        folder: 0,
        kind: 0,
        answer: 0,
        count: 0,
        list: 0,
        place,
    }
}

impl From<Result<Step, Fault>> for HcLogItem {
    ghost from_gives = { λ i r. r ≡ log_item (item_of i) };

    fn from(i: Result<Step, Fault>) -> HcLogItem {
        match i {
            Ok(Step::Record(e)) => HcLogItem::from(e),
            Ok(Step::End(place)) => no_record(1, place),
            Err(f) => {
                let refusal = HcPlaced::from(f);
                no_record(refusal.number, refusal.value)
            }
        }
    }
}

// A number's answer.
fn number_at(number: u16, value: u16, place: usize) -> HcNumber
    ensures { result ≡ record { number = number; value = value; place = place } }
{
    HcNumber {
        number,
        value,
        place,
    }
}

impl From<Result<(u16, usize), NumberFault>> for HcNumber {
    ghost from_gives = { λ d r. r ≡ number_of (decoded_answer d) };

    fn from(d: Result<(u16, usize), NumberFault>) -> HcNumber {
        match d {
            Ok((value, next)) => number_at(0, value, next),
            Err(NumberFault::Cut(place)) => number_at(51, 0, place),
            Err(NumberFault::Bad(place)) => number_at(52, 0, place),
        }
    }
}
