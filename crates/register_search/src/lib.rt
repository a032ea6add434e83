// The search for refusal 3 (document 01, 'The register'): the first folder that differs in class alone from an earlier one. Lists of any
// lengths may be given; whether they fit is asked once, before any walk.
#![tactic(auto)]

mod few; // among few folders, by marks
mod folders; // the folders that are searched
mod scan; // plain searches through the labels
mod table; // among many, by a table

ghost use Rattle.std.specs.Prelude.{◌≡◌, MatchOption, slice_get, true, false};
ghost use Rattle.register.specs.Lent.{labels_lent};
ghost use Rattle.register.specs.Register.{later};
ghost use Rattle.register_search.specs.Folders.{register_in};
ghost use Rattle.register_search.specs.Search.{searched, search_answer, clash_answer};

use crate::few::walk_few;
use crate::folders::Folders;
use crate::table::walk_later;
use ids::FolderNo;
use register::Labels;

// The folders, if the lists are of one length, with at most 512 folders.
fn fitting(labels: Labels) -> Option<Folders>
    ensures { MatchOption result (searched (labels_lent labels) ≡ false) (λ e. (register_in e ≡ labels_lent labels) × (searched (labels_lent labels) ≡ true)) }
{
    if (labels.classes.len() <= 512) & (labels.classes.len() == labels.clients.len()) {
        return Some(Folders { labels });
    }
    None
}

// The first folder that differs in class alone from an earlier one. One folder has no earlier one; with few, marks are quicker than emptying the table.
fn first_later(folders: Folders) -> Option<usize>
    ensures { result ≡ slice_get (later (register_in folders.entry)) 0 }
{
    if folders.labels.classes.len() <= 1 {
        return None;
    }
    if 64 < folders.labels.classes.len() {
        return walk_later(folders);
    }
    walk_few(folders)
}

// The two folders that refusal 3 carries, where lists that fit have such: the first folder that differs from an earlier one of its client, and the first
// such earlier one.
pub fn first_clash(labels: Labels) -> Option<(FolderNo, FolderNo)>
    ensures { clash_answer result ≡ search_answer (labels_lent labels) }
{
    let folders = fitting(labels)?;
    let f = first_later(folders)?;
    let g = folders.first_earlier(f)?;
    Some((FolderNo(f as u16), FolderNo(g as u16)))
}
