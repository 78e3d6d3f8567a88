//! Places in the JSON of a scenario.
ghost use Rattle.std.specs.Prelude.{◌≡◌, ◌++◌, OnOk, IfOk};
ghost use Rattle.tp_scenario.specs.Paths as paths;

use itoa::Buffer;
use std::alloc::Global;
use tp_types::{List, Name, NoMemory, Text};

/// A key of an object.
#[derive(Clone, Copy)]
pub enum Key {
    Admins,
    Clock,
    Credentials,
    Servers,
    Transactions,
    Steps,
    Clients,
    Publishers,
    Officers,
    Name,
    Policies,
    Opening,
    Issuer,
    Subject,
    Attr,
    Value,
    From,
    Until,
    Knows,
    Items,
    Admin,
    Min,
    Max,
    Scheme,
    Level,
    Rounds,
    Queries,
}

impl Key {
    /// How the key is spelled.
    pub fn text(self) -> &'static str
        ensures { result.now ≡ paths.key_text self }
    {
        match self {
            Key::Admins => "admins",
            Key::Clock => "clock",
            Key::Credentials => "credentials",
            Key::Servers => "servers",
            Key::Transactions => "transactions",
            Key::Steps => "steps",
            Key::Clients => "clients",
            Key::Publishers => "publishers",
            Key::Officers => "officers",
            Key::Name => "name",
            Key::Policies => "policies",
            Key::Opening => "opening",
            Key::Issuer => "issuer",
            Key::Subject => "subject",
            Key::Attr => "attr",
            Key::Value => "value",
            Key::From => "from",
            Key::Until => "until",
            Key::Knows => "knows",
            Key::Items => "items",
            Key::Admin => "admin",
            Key::Min => "min",
            Key::Max => "max",
            Key::Scheme => "scheme",
            Key::Level => "level",
            Key::Rounds => "rounds",
            Key::Queries => "queries",
        }
    }
}

/// A place in the JSON of a scenario, by the keys and the indices on the way to it.
#[derive(Clone, Copy)]
pub enum Path {
    /// The whole.
    Whole,
    /// A value of the whole, as `$.admins`.
    Top(Key),
    /// A member of an array of the whole, as `$.admins[0]`.
    Member(Key, usize),
    /// A value of such a member, as `$.admins[0].name`.
    Field(Key, usize, Key),
    /// A member of an array there, as `$.admins[0].policies[1]`.
    Entry(Key, usize, Key, usize),
    /// A value of such a member, as `$.servers[0].items[1].min`.
    Inner(Key, usize, Key, usize, Key),
    /// A member of a script, as `$.clients[0][1]`.
    Line(Key, usize, usize),
}

/// Where a fault stands.
#[derive(Drop)]
pub enum Site {
    At(Path),
    /// What a server knows of the administrator of this name, as `$.servers[0].knows.hr`.
    Known { server: usize, admin: Name },
}

fn put(out: &mut Vec<u8>, piece: &[u8]) -> Result<(), NoMemory>
    ensures { OnOk result (out.new.items ≡ out.old.items ++ piece.now) }
{
    out.extend_from_slice(piece)?;
    Ok(())
}

#[tactic(auto, unfolding(crate::specs::Paths::of_key), using(std::proofs::Common::append_assoc))]
fn put_key(out: &mut Vec<u8>, key: Key) -> Result<(), NoMemory>
    ensures { OnOk result (out.new.items ≡ out.old.items ++ paths.of_key key) }
{
    put(out, b".")?;
    put(out, key.text().as_bytes())
}

#[tactic(auto, unfolding(crate::specs::Paths::at_index), using(std::proofs::Common::append_assoc))]
fn put_index(out: &mut Vec<u8>, index: usize) -> Result<(), NoMemory>
    ensures { OnOk result (out.new.items ≡ out.old.items ++ paths.at_index index) }
{
    put(out, b"[")?;
    put(out, Buffer::new().format(index).as_bytes())?;
    put(out, b"]")
}

#[tactic(auto, using(std::proofs::Common::append_assoc))]
fn put_field(out: &mut Vec<u8>, top: Key, index: usize, key: Key) -> Result<(), NoMemory>
    ensures { OnOk result
        (out.new.items
        ≡ out.old.items ++ (paths.of_key top ++ paths.at_index index ++ paths.of_key key)) }
{
    put_key(out, top)?;
    put_index(out, index)?;
    put_key(out, key)
}

#[tactic(auto, using(std::proofs::Common::append_assoc))]
fn put_path(out: &mut Vec<u8>, path: Path) -> Result<(), NoMemory>
    ensures { OnOk result (out.new.items ≡ out.old.items ++ paths.below path) }
{
    match path {
        Path::Whole => put(out, b""),
        Path::Top(top) => put_key(out, top),
        Path::Member(top, index) => {
            put_key(out, top)?;
            put_index(out, index)
        }
        Path::Field(top, index, key) => put_field(out, top, index, key),
        Path::Entry(top, index, key, inner) => {
            put_field(out, top, index, key)?;
            put_index(out, inner)
        }
        Path::Inner(top, index, key, inner, last) => {
            put_field(out, top, index, key)?;
            put_index(out, inner)?;
            put_key(out, last)
        }
        Path::Line(top, index, line) => {
            put_key(out, top)?;
            put_index(out, index)?;
            put_index(out, line)
        }
    }
}

#[tactic(auto, using(std::proofs::Common::append_assoc))]
fn put_site(out: &mut Vec<u8>, site: &Site) -> Result<(), NoMemory>
    ensures { OnOk result (out.new.items ≡ out.old.items ++ paths.below_site site.now) }
{
    match site {
        Site::At(path) => put_path(out, *path),
        Site::Known { server, admin } => {
            put_field(out, Key::Servers, *server, Key::Knows)?;
            put(out, b".")?;
            put(out, admin.bytes())
        }
    }
}

/// How the place is written: `$`, then `.key` and `[index]`.
pub(crate) fn site_text(alloc: Global, site: &Site) -> Result<Text, NoMemory>
    ensures { IfOk result (λ text. text.0 ≡ paths.site_text site.now) }
{
    let mut out = Vec::from_slice(alloc, b"$")?;
    put_site(&mut out, site)?;
    Ok(Text(List::from_vec(out)))
}
