// Refusal 3 among few folders, in one pass: each folder leaves a mark by its client, one more than its number. Clients that share a place
// are told apart by the folders themselves, and where a mark tells nothing, the folder is compared with all earlier ones.
ghost use Rattle.std.specs.Prelude.{◌<◌, ◌≤◌, ◌≡◌, length, slice_get};
ghost use Rattle.vocabulary.specs.Those.{some};
ghost use Rattle.register_search.specs.Marks.{Clean, Alone};
ghost use Rattle.register.specs.Register.{earlier, later};
ghost use Rattle.register_search.specs.Folders.{register_in};

use crate::folders::Folders;
use ids::ClientNo;

// Whether `f` differs in class alone from an earlier folder, where no earlier one does, by the mark in its client's place. Without one, no earlier
// folder is of its client; one that a folder of its client left stands for all of them; after another client's, all earlier ones are searched, and
// where there are few of these, one by one, which is quicker.
fn clashes_by(folders: Folders, mark: usize, f: usize) -> bool
    requires { (f < length folders.labels.classes.now) × Clean (register_in folders) f × (mark ≤ f) × (mark ≡ 0 → Alone folders.labels.clients.now f) }
    ensures { result ≡ some (earlier (register_in folders.entry) f) }
{
    if mark == 0 {
        return false;
    }
    if ClientNo(folders.labels.clients[mark - 1]) == ClientNo(folders.labels.clients[f]) {
        return folders.clashes(mark, f);
    }
    if f < 8 {
        return folders.first_earlier(f).is_some();
    }
    folders.any_earlier(f)
}

// The first folder that differs in class alone from an earlier one. No folder that the loop has passed does, and each has left its mark.
pub(crate) fn walk_few(folders: Folders) -> Option<usize>
    requires { length folders.labels.classes.now ≤ 64 }
    ensures { result ≡ slice_get (later (register_in folders.entry)) 0 }
{
    let mut marks = [0u8; 128];
    for f in 0..folders.labels.classes.len() {
        let place = usize::from(folders.labels.clients[f] % 128);
        if clashes_by(folders, usize::from(marks[place]), f) {
            return Some(f);
        }
        marks[place] = (f + 1) as u8;
    }
    None
}
