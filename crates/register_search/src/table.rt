// Refusal 3 in one pass: a table of the folders met so far, by their clients. Each slot heads a chain of its folders, the
// last first; the numbers kept are one more than the folder's, and 0 is the end.
ghost use Rattle.std.specs.Prelude.{◌<◌, ◌≤◌, ◌+◌, ◌≡◌, length, get_or, set, slice_get, IfSome};
ghost use Rattle.register_search.specs.Chains.{past_last, of_client, slot_of, SlotsListed, Chained};
ghost use Rattle.register_search.specs.Folders.{register_in};
ghost use Rattle.register.specs.Register.{client_of, later};

use crate::folders::Folders;
use ids::ClientNo;

// For each slot the last folder in it, and for each folder the last one before it in its slot.
#[derive(Drop)]
struct Table {
    heads: [u16; 2048],
    nexts: [u16; 512],
}

// A client's slot. Clients that follow on each other have different ones, also in steps of a power of two. Worked out in 16 bits.
fn slot(client: ClientNo) -> u16
    ensures { result ≡ slot_of client.0 }
{
    let c = client.0;
    (c % 2048 + c / 32) % 2048
}

// Lists each folder's slot. A pass of its own, which goes over many folders at once.
fn list_slots(folders: Folders, slots: &mut [u16; 512])
    requires { length slots.old ≡ 512 }
    ensures { SlotsListed folders.entry.labels.clients.now slots.new (length folders.entry.labels.clients.now) }
{
    for f in 0..folders.labels.clients.len() {
        slots[f] = slot(ClientNo(folders.labels.clients[f]));
    }
}

// Notes the folder that headed `f`'s slot before it, as one more than its number. Mostly there was none, and the 0 that stands there is not stored again.
fn link(nexts: &mut [u16; 512], f: usize, past: u16)
    requires { (f < 512) × ((length nexts.old ≡ 512) × (get_or nexts.old f 0 ≡ 0)) }
    ensures { nexts.new ≡ set nexts.old f past }
{
    if past > 0 {
        nexts[f] = past;
    }
}

impl Table {
    // Seeks the last folder before `f` of `f`'s client: walks the folders of the client's slot `s`, the last first, for at most `steps` others. It says
    // the folder as one more than its number, or 0, and how many steps are left; or that the walk was given up.
    fn last_of_client(
        &self,
        folders: Folders,
        s: usize,
        f: usize,
        steps: usize,
    ) -> Option<(usize, usize)>
        requires { (s ≡ slot_of (client_of (register_in folders) f)) × (f < length folders.labels.clients.now) × Chained folders.labels.clients.now self.now.heads self.now.nexts f }
        ensures { IfSome result (λ found. found.0 ≡ past_last (of_client folders.entry.labels.clients.now (client_of (register_in folders.entry) f)) f) }
    {
        let clients = folders.labels.clients;
        let client = ClientNo(clients[f]);
        let mut left = steps;
        let mut past = usize::from(self.heads[s]);
        while past > 0 {
            let g = past - 1;
            if ClientNo(clients[g]) == client {
                return Some((past, left));
            }
            left = left.checked_sub(1)?;
            past = usize::from(self.nexts[g]);
        }
        Some((0, left))
    }

    // Enters folder `f` into the table, at the head of its slot `s`.
    fn enter(&mut self, folders: Folders, s: usize, f: usize)
        requires { (s ≡ slot_of (client_of (register_in folders) f)) × (f < length folders.labels.clients.now) × Chained folders.labels.clients.now self.old.heads self.old.nexts f }
        ensures { Chained folders.entry.labels.clients.now self.new.heads self.new.nexts (f + 1) }
    {
        link(&mut self.nexts, f, self.heads[s]);
        self.heads[s] = (f + 1) as u16;
    }
}

// The first folder that differs in class alone from an earlier one. While no folder does, all folders of a client have one class, so that the last of
// them stands for all. Where clients crowd in a slot, the rest is sought plainly: one step for each folder is enough for clients that were not chosen
// to.
pub(crate) fn walk_later(folders: Folders) -> Option<usize>
    ensures { result ≡ slice_get (later (register_in folders.entry)) 0 }
{
    let mut slots = [0u16; 512];
    list_slots(folders, &mut slots);
    let mut table = Table {
        heads: [0u16; 2048],
        nexts: [0u16; 512],
    };
    let mut left = folders.labels.classes.len();
    for f in 0..folders.labels.classes.len() {
        let s = usize::from(slots[f]);
        let Some((past, rest)) = table.last_of_client(folders, s, f, left) else {
            return folders.search_from(f);
        };
        if folders.clashes(past, f) {
            return Some(f);
        }
        left = rest;
        table.enter(folders, s, f);
    }
    None
}
