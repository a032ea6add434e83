// The clients in conflict by pairs with one client, marked in two passes. Neither branches on what a list holds, since such a branch is often guessed
// wrong.
ghost use Rattle.std.specs.Prelude.{ℕ, ◌<◌, ◌≡◌, ◌||◌, length};
ghost use Rattle.vocabulary.specs.Those.{those, some};
ghost use Rattle.row_marks.specs.Marks.{marked, Listed, wanted_at, opponent};

use crate::client_set::ClientSet;
use crate::fitting::FewPairs;
use ids::ClientNo;

// Each pair's other client, and whether the pair names the client asked for.
#[derive(Drop)]
struct Listing {
    others: [u16; 256],
    wanted: [bool; 256],
}

impl Listing {
    // A pass of its own, which runs on many pairs at once.
    fn of(pairs: FewPairs, client: ClientNo) -> Listing
        ensures { Listed pairs.entry client.0 result (length pairs.entry.lists.firsts.now) }
    {
        let mut list = Listing {
            others: [0; 256],
            wanted: [false; 256],
        };
        for i in 0..pairs.lists.firsts.len() {
            let first = ClientNo(pairs.lists.firsts[i]);
            let second = ClientNo(pairs.lists.seconds[i]);
            list.others[i] = register_pairs::other(first, second, client).0;
            list.wanted[i] = register_pairs::names(first, second, client);
        }
        list
    }

    // Adds the client listed at a place, if it is wanted.
    fn add(&self, at: usize, set: &mut ClientSet)
        requires { at < 256 }
        ensures { (x : ℕ) → marked set.new x ≡ (marked set.old x || wanted_at self.now x at) }
    {
        set.add_if(ClientNo(self.others[at]), self.wanted[at]);
    }

    // Adds those that are wanted, four at a time, a quarter of the list apart: clients that are numbered one after the other share a word, and a word
    // that was just stored is slow to load.
    fn add_wanted(&self, set: &mut ClientSet)
        ensures { (x : ℕ) → marked set.new x ≡ (marked set.old x || some (those (wanted_at self.now x) 256)) }
    {
        for i in 0..64 {
            self.add(i, set);
            self.add(i + 64, set);
            self.add(i + 128, set);
            self.add(i + 192, set);
        }
    }
}

// Adds the opponents of the client in all pairs. The set is filled where it stands: a set that is handed back may be copied.
pub(crate) fn add_opponents(pairs: FewPairs, client: ClientNo, set: &mut ClientSet)
    ensures { (x : ℕ) → marked set.new x ≡ (marked set.old x || opponent pairs.entry client.0 x) }
{
    Listing::of(pairs, client).add_wanted(set);
}
