// The person list: the person of each login, and refusal 10 (document 02, C-14). Lists of any length may be given.
#![tactic(auto)]

ghost use Rattle.std.specs.List.{list_any};
ghost use Rattle.std.specs.Prelude.{◌+◌, ◌≤◌, ◌≡◌, leb, length};
ghost use Rattle.person_list.specs.PersonList.{bad_persons, own_numbers, person_of};

use ids::{LoginNo, PersonNo};

// Whether an entry is P or more, one by one: it ends at the first.
fn seek_beyond(logins: u16, persons: &[u16]) -> bool
    ensures { result ≡ list_any (λ p. leb logins p) persons.now }
{
    persons.iter().any(|p| logins <= *p)
}

// Whether an entry is P or more, of many: without a way out of the loop, and with what exceeds gathered by its bits, so that it runs on many entries
// at once in few instructions. Invariant: nothing is gathered just where no entry that the loop has passed is P or more.
fn any_beyond(logins: u16, persons: &[u16]) -> bool
    requires { 1 ≤ logins }
    ensures { result ≡ list_any (λ p. leb logins p) persons.now }
{
    let last = logins - 1;
    let mut gathered: u16 = 0;
    for entry in persons {
        gathered |= entry.saturating_sub(last);
    }
    gathered != 0
}

// Whether an entry is P or more, in a list whose first `HALF` and last `HALF` entries, which may overlap, are all of it. Without a way out of the loop,
// and with what exceeds gathered by its bits, so that it runs on many entries at once; `HALF` is a constant, so that the compiler writes every turn out.
// Invariant: nothing is gathered just where no entry that either half has passed is P or more.
fn beyond_in_halves<const HALF: usize>(logins: u16, persons: &[u16]) -> bool
    requires { (1 ≤ logins) × (HALF ≤ length persons.now) × (length persons.now ≤ HALF + HALF) }
    ensures { result ≡ list_any (λ p. leb logins p) persons.now }
{
    let most = logins - 1;
    let second = persons.len() - HALF;
    let mut gathered: u16 = 0;
    for s in 0..HALF {
        let front = persons[s].saturating_sub(most);
        let back = persons[second + s].saturating_sub(most);
        gathered = gathered | front | back;
    }
    gathered != 0
}

// Whether refusal 10 speaks: the list's length is not P, or an entry is P or more. A house has at most 128 logins, whose entries
// are judged by halves of a constant length. An entry has 16 bits, so none reaches a P above 65,535.
pub fn bad_persons(logins: usize, persons: &[u16]) -> bool
    ensures { result ≡ bad_persons logins persons.now }
{
    if persons.len() != logins {
        return true;
    }
    if logins < 8 {
        return seek_beyond(logins as u16, persons);
    }
    if logins <= 16 {
        return beyond_in_halves::<8>(logins as u16, persons);
    }
    if logins <= 32 {
        return beyond_in_halves::<16>(logins as u16, persons);
    }
    if logins <= 64 {
        return beyond_in_halves::<32>(logins as u16, persons);
    }
    if logins <= 128 {
        return beyond_in_halves::<64>(logins as u16, persons);
    }
    if 65535 < logins {
        return false;
    }
    any_beyond(logins as u16, persons)
}

// The person of a login; 65,535, which is no person, for a login that the list does not have.
pub fn person_of(persons: &[u16], login: LoginNo) -> PersonNo
    ensures { result.0 ≡ person_of persons.now login.0 }
{
    PersonNo(persons.get(login.0 as usize).copied().unwrap_or(65535))
}

// Every login its own number: the list of a house of 128 logins. Fewer logins take as many from its start.
pub fn own_numbers() -> [u16; 128]
    ensures { result ≡ own_numbers 128 }
{
    std::array::from_fn(|s| s as u16)
}
