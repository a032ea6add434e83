// The rules on one cell of a row and two labels, the folder's and that of the folder asked for (document 01, 'The four kinds of request'). Cells
// and kinds are judged by the caller: a cell is read by its two rights, and a kind other than 1 to 4 asks for nothing.
#![tactic(auto)]

ghost use Rattle.std.specs.Prelude.{◌≡◌};
ghost use Rattle.policy.specs.Rules.{cell_for};
ghost use Rattle.cell_rules.specs.Cut.{is_rival, is_foreign, is_at_stake, cell_left};

use ids::Label;

// Rival by classes: readable, of o's class and of another client.
pub fn is_rival(cell: u8, f: Label, o: Label) -> bool
    ensures { result ≡ is_rival cell f o }
{
    (cell % 2 == 1) & (f.same_class(o) & !f.same_client(o))
}

// Foreign: readable, not sanitised, of another client.
pub fn is_foreign(cell: u8, f: Label, o: Label) -> bool
    ensures { result ≡ is_foreign cell f o }
{
    (cell % 2 == 1) & !f.is_sanitised() & !f.same_client(o)
}

// At stake: writable, of another client; none if o is sanitised.
pub fn is_at_stake(cell: u8, f: Label, o: Label) -> bool
    ensures { result ≡ is_at_stake cell f o }
{
    (2 <= cell) & !f.same_client(o) & !o.is_sanitised()
}

// The cell that shows these rights; without a branch, so that a walk goes over several at a time.
fn cell_for(read: bool, write: bool) -> u8
    ensures { result ≡ cell_for read write }
{
    u8::from(read) + 2 * u8::from(write)
}

// The cell of a folder after a grant; `asked` says whether it is the folder asked for.
pub fn cell_left(cell: u8, f: Label, o: Label, asked: bool, kind: u16) -> u8
    ensures { result ≡ cell_left cell f o asked kind }
{
    let kept = (2 <= cell) & !(kinds::revokes(kind) & is_at_stake(cell, f, o));
    cell_for(
        (cell % 2 == 1) | (asked & kinds::reads(kind)),
        kept | (asked & kinds::writes(kind)),
    )
}
