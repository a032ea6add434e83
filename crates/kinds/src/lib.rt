// What each kind of request does (document 01, 'The four kinds of request'): which rights it enters, and whether it takes write rights back. A kind
// other than 1 to 4 does nothing.
#![tactic(auto)]

ghost use Rattle.std.specs.Prelude.{◌≡◌};
ghost use Rattle.policy.specs.Rules.{reads, writes, revokes};

// Whether a kind enters a read right.
pub fn reads(kind: u16) -> bool
    ensures { result ≡ reads kind }
{
    (kind == 1) | (kind == 2) | (kind == 4)
}

// Whether a kind enters a write right.
pub fn writes(kind: u16) -> bool
    ensures { result ≡ writes kind }
{
    (kind == 3) | (kind == 4)
}

// Whether a kind takes back the write rights at stake.
pub fn revokes(kind: u16) -> bool
    ensures { result ≡ revokes kind }
{
    (kind == 1) | (kind == 4)
}
