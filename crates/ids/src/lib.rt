// Folder, client, class, login and person numbers look alike on paper (document 01, 'The register' and 'Our forms for each place'; document 02,
// C-14): each is a type of its own, so that one given in another's place does not build.
#![tactic(auto)]

ghost use Rattle.std.specs.Prelude.{◌≡◌, eqb};
ghost use Rattle.ids.specs.Label.{label_of};

// A login, numbered from 0: who asks.
#[derive(Clone, Copy, PartialEq, Eq)]
pub struct LoginNo(pub u16);

// A person, numbered from 0: whose rights they are. A person may have several logins; 65,535 is no person.
#[derive(Clone, Copy, PartialEq, Eq)]
pub struct PersonNo(pub u16);

// A folder, numbered from 0.
#[derive(Clone, Copy, PartialEq, Eq)]
pub struct FolderNo(pub u16);

// A client; 0 is the client of a sanitised folder.
#[derive(Clone, Copy, PartialEq, Eq)]
pub struct ClientNo(pub u16);

// A class of clients in competition; 0 is the class of a sanitised folder.
#[derive(Clone, Copy, PartialEq, Eq)]
pub struct ClassNo(pub u16);

// A folder's label.
#[derive(Clone, Copy, PartialEq, Eq)]
pub struct Label {
    pub class: ClassNo,
    pub client: ClientNo,
}

// What a login asks for: a folder, and by its kind which rights on it. A kind may be any number; only 1 to 4 are served.
#[derive(Clone, Copy, PartialEq, Eq)]
pub struct Request {
    pub login: LoginNo,
    pub folder: FolderNo,
    pub kind: u16,
}

impl Label {
    // The label of a folder of this class and client.
    pub fn new(class: ClassNo, client: ClientNo) -> Label
        ensures { result ≡ label_of class.0 client.0 }
    {
        Label { class, client }
    }

    // Whether two folders' clients are one client.
    pub fn same_client(self, other: Label) -> bool
        ensures { result ≡ eqb self.client.0 other.client.0 }
    {
        self.client == other.client
    }

    // Whether two folders' classes are one class.
    pub fn same_class(self, other: Label) -> bool
        ensures { result ≡ eqb self.class.0 other.class.0 }
    {
        self.class == other.class
    }

    // Whether the folder is sanitised: its client is 0.
    pub fn is_sanitised(self) -> bool
        ensures { result ≡ eqb self.client.0 0 }
    {
        self.client == ClientNo(0)
    }
}
