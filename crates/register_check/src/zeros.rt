// Refusal 2: searches for a folder with exactly one 0.
ghost use Rattle.std.specs.Prelude.{◌≡◌, eqb, length, slice_get};
ghost use Rattle.vocabulary.specs.Those.{those, some};
ghost use Rattle.register.specs.Lent.{labels_lent};
ghost use Rattle.register.specs.Register.{exactly_one, folders, lone_zero};

use ids::{ClassNo, ClientNo};
use register::Labels;

// Whether exactly one of a folder's class and client is 0.
fn lone_zero(class: ClassNo, client: ClientNo) -> bool
    ensures { result ≡ exactly_one (eqb class.0 0) (eqb client.0 0) }
{
    (class == ClassNo(0)) != (client == ClientNo(0))
}

// Whether any folder has exactly one 0. Without a way out of the loop, so that it runs on many folders at once.
fn any_lone_zero(labels: Labels) -> bool
    requires { length labels.classes.now ≡ length labels.clients.now }
    ensures { result ≡ some (those (lone_zero (labels_lent labels)) (folders (labels_lent labels))) }
{
    let mut any = false;
    for f in 0..labels.classes.len() {
        any |= lone_zero(ClassNo(labels.classes[f]), ClientNo(labels.clients[f]));
    }
    any
}

// The first folder with exactly one 0. Mostly there is none, and whether there is any is asked first, since that is quicker.
pub(crate) fn first_lone_zero(labels: Labels) -> Option<usize>
    requires { length labels.classes.now ≡ length labels.clients.now }
    ensures { result ≡ slice_get (those (lone_zero (labels_lent labels)) (folders (labels_lent labels))) 0 }
{
    if !any_lone_zero(labels) {
        return None;
    }
    for f in 0..labels.classes.len() {
        if lone_zero(ClassNo(labels.classes[f]), ClientNo(labels.clients[f])) {
            return Some(f);
        }
    }
    None
}
