// What a request is answered (document 01, 'Where each refusal is checked'; document 02, C-12 and C-14).
#![tactic(auto)]

ghost use Rattle.std.specs.Prelude.{◌≡◌};
ghost use Rattle.response.specs.Response.{numbers_of, response_answer};
ghost use Rattle.response.specs.declared.Refusal.TheVariants.{Register, Wall};

use ids::FolderNo;
use register::RegisterFault;

// A refusal by the wall, with the folder that it names: the refusals that are logged.
#[derive(Clone, Copy, PartialEq, Eq)]
pub enum WallRefusal {
    // 20: a rival exists
    Rival(FolderNo),
    // 21: kind 3 or 4, and a foreign folder exists
    Foreign(FolderNo),
    // 22: kind 2, and a folder is at stake
    AtStake(FolderNo),
}

// Why a request is refused; the register check's and the wall's refusals are enums of their own.
#[derive(Clone, Copy, PartialEq, Eq)]
pub enum Refusal {
    // 1, 2, 3 or 11: the register check's
    Register(RegisterFault),
    // 4: the matrix's length is not P times F
    MatrixLength,
    // 5: login is P or more
    UnknownLogin,
    // 6: folder is F or more
    UnknownFolder,
    // 7: kind is not 1 to 4
    UnknownKind,
    // 8: a cell of the person's row exceeds 3
    BadCell(FolderNo),
    // 9: the log's end lies past its buffer
    BadEnd,
    // 10: the person list's length is not P, or an entry is P or more
    BadPersons,
    // 20, 21 or 22: the wall's
    Wall(WallRefusal),
    // 30: the record is longer than the room left
    NoRoom,
}

// What a request is answered: 0 with how many write rights were taken back (0 where the grant is not carried out yet), or why it is refused.
pub type Response = Result<u16, Refusal>;

impl From<RegisterFault> for Refusal {
    ghost from_gives = { λ fault r. r ≡ Register fault };

    fn from(fault: RegisterFault) -> Refusal {
        Refusal::Register(fault)
    }
}

impl From<WallRefusal> for Refusal {
    ghost from_gives = { λ refusal r. r ≡ Wall refusal };

    fn from(refusal: WallRefusal) -> Refusal {
        Refusal::Wall(refusal)
    }
}

// A response in numbers: document 01's number, the folders that it carries, and how many write rights a grant took back. What it does
// not carry is 0.
#[derive(Clone, Copy, PartialEq, Eq)]
pub struct Numbers {
    pub number: u16,
    pub first: u16,
    pub second: u16,
    pub count: u16,
}

fn granted(count: u16) -> Numbers
    ensures { result ≡ record { number = 0; first = 0; second = 0; count = count } }
{
    Numbers {
        number: 0,
        first: 0,
        second: 0,
        count,
    }
}

fn refused(number: u16, first: u16, second: u16) -> Numbers
    ensures { result ≡ record { number = number; first = first; second = second; count = 0 } }
{
    Numbers {
        number,
        first,
        second,
        count: 0,
    }
}

// Document 01's number and values of a response.
impl From<Response> for Numbers {
    ghost from_gives = { λ response n. n ≡ numbers_of (response_answer response) };

    fn from(response: Response) -> Numbers {
        match response {
            Ok(count) => granted(count),
            Err(Refusal::Register(RegisterFault::OutOfRange)) => refused(1, 0, 0),
            Err(Refusal::Register(RegisterFault::LoneZero(f))) => refused(2, f.0, 0),
            Err(Refusal::Register(RegisterFault::TwoClasses(f, g))) => refused(3, f.0, g.0),
            Err(Refusal::Register(RegisterFault::BadPairs)) => refused(11, 0, 0),
            Err(Refusal::MatrixLength) => refused(4, 0, 0),
            Err(Refusal::UnknownLogin) => refused(5, 0, 0),
            Err(Refusal::UnknownFolder) => refused(6, 0, 0),
            Err(Refusal::UnknownKind) => refused(7, 0, 0),
            Err(Refusal::BadCell(f)) => refused(8, f.0, 0),
            Err(Refusal::BadEnd) => refused(9, 0, 0),
            Err(Refusal::BadPersons) => refused(10, 0, 0),
            Err(Refusal::Wall(WallRefusal::Rival(f))) => refused(20, f.0, 0),
            Err(Refusal::Wall(WallRefusal::Foreign(f))) => refused(21, f.0, 0),
            Err(Refusal::Wall(WallRefusal::AtStake(f))) => refused(22, f.0, 0),
            Err(Refusal::NoRoom) => refused(30, 0, 0),
        }
    }
}
