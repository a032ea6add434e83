// A set of clients in one array of 8 KiB, a bit for each: client c's is bit c % 64 of word c / 64.
ghost use Rattle.std.specs.Prelude.{ℕ, ◌<◌, ◌/◌, ◌%◌, ◌≡◌, ◌||◌, ◌&&◌, false, eqb};
ghost use Rattle.row_marks.specs.Marks.{marked};

use ids::ClientNo;

#[derive(Drop)]
pub(crate) struct ClientSet {
    words: [u64; 1024],
}

// The place of the client's word.
fn word_of(client: ClientNo) -> usize
    ensures { (result ≡ client.0 / 64) × (result < 1024) }
{
    usize::from(client.0 / 64)
}

impl ClientSet {
    // Nobody.
    pub(crate) fn new() -> ClientSet
        ensures { (x : ℕ) → marked result x ≡ false }
    {
        ClientSet { words: [0; 1024] }
    }

    // Adds the client if it is wanted. The flag is moved up to the client's bit, without a branch.
    pub(crate) fn add_if(&mut self, client: ClientNo, wanted: bool)
        ensures { (x : ℕ) → marked self.new x ≡ (marked self.old x || wanted && eqb client.0 x) }
    {
        self.words[word_of(client)] |= u64::from(wanted) << (client.0 % 64);
    }

    // The client's bit and those above it: the lowest says whether the client is in the set.
    pub(crate) fn bits_from(&self, client: ClientNo) -> u64
        ensures { eqb (result % 2) 1 ≡ marked self.now client.0 }
    {
        self.words[word_of(client)] >> (client.0 % 64)
    }
}
