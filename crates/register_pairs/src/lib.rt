// The pairs of clients in two lists, and refusal 11 (document 02, C-12). Lists of any lengths may be given.
#![tactic(auto)]

ghost use Rattle.std.specs.Prelude.{◌≡◌, ◌||◌, eqb, length};
ghost use Rattle.vocabulary.specs.Those.{those, some};
ghost use Rattle.register.specs.Lent.{pairs_lent};
ghost use Rattle.register.specs.Register.{bad_pair, bad_pairs};
ghost use Rattle.register_pairs.specs.Pair.{names_client, other_client, pairs_fit};

use ids::ClientNo;
use register::Pairs;

// Whether a pair names client 0 or one client twice.
fn bad_pair(first: ClientNo, second: ClientNo) -> bool
    ensures { result ≡ eqb first.0 0 || eqb second.0 0 || eqb first.0 second.0 }
{
    (first == ClientNo(0)) | (second == ClientNo(0)) | (first == second)
}

// Whether any pair does. Without a way out of the loop, so that it runs on many pairs at once.
fn any_bad_pair(pairs: Pairs) -> bool
    requires { length pairs.firsts.now ≡ length pairs.seconds.now }
    ensures { result ≡ some (those (bad_pair (pairs_lent pairs)) (length pairs.entry.firsts.now)) }
{
    let mut any = false;
    for i in 0..pairs.firsts.len() {
        any |= bad_pair(ClientNo(pairs.firsts[i]), ClientNo(pairs.seconds[i]));
    }
    any
}

// Whether refusal 11 speaks: the lists are of unequal length or have over 256 pairs, or a pair names client 0 or one client twice.
pub fn bad_pairs(pairs: Pairs) -> bool
    ensures { result ≡ bad_pairs (pairs_lent pairs) }
{
    if pairs.firsts.len() != pairs.seconds.len() || 256 < pairs.firsts.len() {
        return true;
    }
    any_bad_pair(pairs)
}

// Whether the lists are of one length and have at most 256 pairs.
pub fn pairs_fit(pairs: Pairs) -> bool
    ensures { result ≡ pairs_fit (pairs_lent pairs) }
{
    pairs.firsts.len() == pairs.seconds.len() && pairs.firsts.len() <= 256
}

// Whether a pair names a client, whichever way round it stands.
pub fn names(first: ClientNo, second: ClientNo, client: ClientNo) -> bool
    ensures { result ≡ names_client first.0 second.0 client.0 }
{
    (first == client) | (second == client)
}

// The other client of a pair that names one; the first of a pair that does not.
pub fn other(first: ClientNo, second: ClientNo, client: ClientNo) -> ClientNo
    ensures { result.0 ≡ other_client first.0 second.0 client.0 }
{
    if first == client {
        return second;
    }
    first
}
