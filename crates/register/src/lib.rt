// The register as a caller lends it (document 01, 'The register'; document 02, C-12): lists of any lengths may stand in it. The rules that judge it
// are in specs/; `register_check` is the check by them.
#![tactic(auto)]

use ids::FolderNo;

// The folders' labels: a class and a client for each folder, in folder order.
#[derive(Clone, Copy)]
pub struct Labels<'a> {
    pub classes: &'a [u16],
    pub clients: &'a [u16],
}

// Pairs of clients in conflict, whichever way round they stand.
#[derive(Clone, Copy)]
pub struct Pairs<'a> {
    pub firsts: &'a [u16],
    pub seconds: &'a [u16],
}

// A register: the number of logins, the labels, the wall's mode, and the pairs, which are looked at in pair mode alone.
#[derive(Clone, Copy)]
pub struct Register<'a> {
    pub logins: usize,
    pub labels: Labels<'a>,
    pub by_pairs: bool,
    pub pairs: Pairs<'a>,
}

// What the register check refuses (document 01, 'Where each refusal is checked'; document 02, C-12).
#[derive(Clone, Copy, PartialEq, Eq)]
pub enum RegisterFault {
    // 1: P or F beyond its range, or lists of unequal length
    OutOfRange,
    // 2: exactly one of class and client is 0
    LoneZero(FolderNo),
    // 3: a client has two classes; the first folder that differs from an earlier one of its client, and the first such earlier one
    TwoClasses(FolderNo, FolderNo),
    // 11: in pair mode, the pairs' lists are of unequal length or have over 256 pairs, or a pair names client 0 or one client twice
    BadPairs,
}
