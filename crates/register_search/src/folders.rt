// The folders whose labels are searched: lists of one length, with at most 512 folders. It is asked once, before any walk.
ghost use Rattle.std.specs.Prelude.{◌≤◌, ◌≡◌, length};

use register::Labels;

#[derive(Clone, Copy)]
pub(crate) struct Folders<'a> {
    pub(crate) labels: Labels<'a>,
    ghost few: { length labels.classes.now ≤ 512 },
    ghost even: { length labels.classes.now ≡ length labels.clients.now },
}
