// The opponents of a client by pairs, counted and listed.
ghost use Rattle.std.specs.Prelude.{◌≤◌, ◌≡◌, length};
ghost use Rattle.row_pairs.specs.Opponents.{named, opponents};

use ids::ClientNo;
use row_marks::FewPairs;

// How many pairs name the client. Without a branch in the loop and in 16 bits, so that it goes over several pairs at once.
pub(crate) fn count_named(pairs: FewPairs, client: ClientNo) -> u16
    ensures { result ≡ named pairs.entry.lists.firsts.now pairs.entry.lists.seconds.now client.0 }
{
    let mut count = 0;
    for i in 0..pairs.lists.firsts.len() {
        let first = ClientNo(pairs.lists.firsts[i]);
        let second = ClientNo(pairs.lists.seconds[i]);
        count += u16::from(register_pairs::names(first, second, client));
    }
    count
}

// Lists the opponents in the room that is lent, and hands back those listed. The pairs name the client at most 32 times.
pub(crate) fn list_opponents<'a>(
    pairs: FewPairs,
    client: ClientNo,
    room: &'a mut [u16; 32],
) -> &'a [u16]
    requires { named pairs.lists.firsts.now pairs.lists.seconds.now client.0 ≤ 32 }
    ensures { result.now ≡ opponents pairs.entry.lists.firsts.now pairs.entry.lists.seconds.now client.0 (length pairs.entry.lists.firsts.now) }
{
    let mut n = 0;
    for i in 0..pairs.lists.firsts.len() {
        let first = ClientNo(pairs.lists.firsts[i]);
        let second = ClientNo(pairs.lists.seconds[i]);
        if register_pairs::names(first, second, client) {
            room[n] = register_pairs::other(first, second, client).0;
            n += 1;
        }
    }
    &room[..n]
}
