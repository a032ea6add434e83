// The register check (document 01, 'The register'; document 02, C-12).
#![tactic(auto)]

mod zeros; // refusal 2

ghost use Rattle.std.specs.Prelude.{◌≡◌, ◌&&◌, cond, []};
ghost use Rattle.vocabulary.specs.Answer.{answer};
ghost use Rattle.register.specs.Lent.{register_lent, pairs_lent};
ghost use Rattle.register.specs.Register.{bad_pairs, in_range, register_answer, register_of};
ghost use Rattle.register_check.specs.Verdict.{verdict_answer};

use crate::zeros::first_lone_zero;
use ids::FolderNo;
use register::{Labels, Pairs, Register};
pub use register::RegisterFault; // why a register is refused

// Whether P and F are within their ranges and the lists of one length.
fn in_range(logins: usize, labels: Labels) -> bool
    ensures { result ≡ in_range (register_of logins labels.entry.classes.now labels.entry.clients.now) }
{
    (1 <= logins)
        & (logins <= 128)
        & (1 <= labels.classes.len())
        & (labels.classes.len() <= 512)
        & (labels.classes.len() == labels.clients.len())
}

// The table's rows 1 to 3, of the folders' labels: what both modes have.
pub fn check_labels(logins: usize, labels: Labels) -> Result<(), RegisterFault>
    ensures { verdict_answer result ≡ register_answer (register_of logins labels.entry.classes.now labels.entry.clients.now) }
{
    if !in_range(logins, labels) {
        return Err(RegisterFault::OutOfRange);
    }
    if let Some(f) = first_lone_zero(labels) {
        return Err(RegisterFault::LoneZero(FolderNo(f as u16)));
    }
    if let Some((f, g)) = register_search::first_clash(labels) {
        return Err(RegisterFault::TwoClasses(f, g));
    }
    Ok(())
}

// The table's row 11. By classes the pairs are not looked at.
pub fn check_pairs(by_pairs: bool, pairs: Pairs) -> Result<(), RegisterFault>
    ensures { verdict_answer result ≡ cond (by_pairs && bad_pairs (pairs_lent pairs)) (answer 11 []) (answer 0 []) }
{
    if by_pairs && register_pairs::bad_pairs(pairs) {
        return Err(RegisterFault::BadPairs);
    }
    Ok(())
}

// The register check: the table's rows 1 to 3 and, in pair mode, 11.
pub fn check(register: &Register) -> Result<(), RegisterFault>
    ensures { verdict_answer result ≡ register_answer (register_lent register.now) }
{
    check_labels(register.logins, register.labels)?;
    check_pairs(register.by_pairs, register.pairs)
}
