// What the run goes on with after the lines before the requests.
ghost use Rattle.std.specs.Prelude.{◌≤◌, ◌≡◌, length};

use std::marker::Model;

// A register that was accepted, its labels from the start of their lists, zeros after them; and the place after its lines.
#[derive(Drop)]
pub struct Opening {
    pub(crate) logins: usize,
    pub(crate) folders: usize,
    pub(crate) classes: [u16; 512],
    pub(crate) clients: [u16; 512],
    pub(crate) place: usize,
}

impl Model for Opening {
    ghost use Rattle.desk_opening.specs.Ready.{Ready};

    ghost Value = { Ready };

    ghost use Rattle.desk_opening.specs.Inside.{ready, Filled};

    ghost view = { ready };

    ghost invariant = { Filled };
}

impl Opening {
    // How many logins there are.
    pub fn logins(&self) -> usize
        ensures { (result ≡ self.now.register.logins) × (result ≤ 128) }
    {
        self.logins
    }

    // Each folder's class.
    pub fn classes(&self) -> &[u16]
        ensures { (result.now ≡ self.now.register.classes) × (length result.now ≤ 512) }
    {
        &self.classes[..self.folders]
    }

    // Each folder's client.
    pub fn clients(&self) -> &[u16]
        ensures { (result.now ≡ self.now.register.clients) × (length result.now ≤ 512) }
    {
        &self.clients[..self.folders]
    }

    // The place after the register's lines.
    pub fn place(&self) -> usize
        ensures { result ≡ self.now.place }
    {
        self.place
    }
}
