// Searches through the folders' labels.
ghost use Rattle.std.specs.Prelude.{◌<◌, ◌≤◌, ◌≡◌, not, ◌&&◌, eqb, length, slice_get};
ghost use Rattle.vocabulary.specs.Those.{some};
ghost use Rattle.ids.specs.Label.{label_of};
ghost use Rattle.register.specs.Register.{class_of, client_of, earlier, later};
ghost use Rattle.register_search.specs.Folders.{register_in};
ghost use Rattle.register_search.specs.Marks.{Clean, clash};

use crate::folders::Folders;
use ids::{ClassNo, ClientNo, Label};

// Whether two folders of one client have two classes.
fn differ(f: Label, g: Label) -> bool
    ensures { result ≡ eqb g.client.0 f.client.0 && not (eqb g.class.0 f.class.0) }
{
    g.same_client(f) & !g.same_class(f)
}

impl<'a> Folders<'a> {
    // A folder's label, from its place in the two lists.
    fn label(self, f: usize) -> Label
        requires { f < length self.labels.classes.now }
        ensures { result ≡ label_of (class_of (register_in self.entry) f) (client_of (register_in self.entry) f) }
    {
        Label::new(
            ClassNo(self.labels.classes[f]),
            ClientNo(self.labels.clients[f]),
        )
    }

    // The first folder before `f` from which `f` differs in class alone.
    pub(crate) fn first_earlier(self, f: usize) -> Option<usize>
        requires { f < length self.labels.classes.now }
        ensures { result ≡ slice_get (earlier (register_in self.entry) f) 0 }
    {
        let label = self.label(f);
        for g in 0..f {
            if differ(label, self.label(g)) {
                return Some(g);
            }
        }
        None
    }

    // Whether `f` differs in class alone from a folder before it. Without a way out of the loop, so that it runs on many folders at once.
    pub(crate) fn any_earlier(self, f: usize) -> bool
        requires { f < length self.labels.classes.now }
        ensures { result ≡ some (earlier (register_in self.entry) f) }
    {
        let label = self.label(f);
        let mut any = false;
        for g in 0..f {
            any |= differ(label, self.label(g));
        }
        any
    }

    // Whether `f` has another class than the folder before `past`, if there is one.
    pub(crate) fn clashes(self, past: usize, f: usize) -> bool
        requires { (f < length self.labels.classes.now) × (past ≤ f) }
        ensures { result ≡ clash self.entry.labels.classes.now f past }
    {
        past != 0 && ClassNo(self.labels.classes[past - 1]) != ClassNo(self.labels.classes[f])
    }

    // The first folder that differs in class alone from an earlier one, by plain search from a folder on. No folder that the loop has passed does.
    pub(crate) fn search_from(self, start: usize) -> Option<usize>
        requires { (start ≤ length self.labels.classes.now) × Clean (register_in self) start }
        ensures { result ≡ slice_get (later (register_in self.entry)) 0 }
    {
        for f in start..self.labels.classes.len() {
            if self.any_earlier(f) {
                return Some(f);
            }
        }
        None
    }
}
