//! Servers: what they know at the start, and their items.
ghost use Rattle.std.specs.Prelude.{◌≡◌, ◌≤◌, ◌-◌, ◌++◌, ◌∷◌, [], length, map, option_map, IfOk, OnOk};
ghost use Rattle.tp_json.specs.View.{view, items_view, members_view};
ghost use Rattle.tp_scenario.specs.Admins.{admin_name};
ghost use Rattle.tp_scenario.specs.Servers as servers;
ghost use Rattle.tp_scenario.specs.Values.{each, through};
ghost use Rattle.tp_scenario.specs.declared.fault.WalkError.TheVariants as error;
ghost use Rattle.tp_scenario.specs.declared.path.Key.TheVariants as Key;
ghost use Rattle.tp_scenario.specs.declared.path.Path.TheVariants as Path;
ghost use Rattle.tp_scenario.specs.mirrors.Entries.{entries_view, lent};
ghost use Rattle.tp_scenario.specs.mirrors.Gives.{Gives, GivesNew, IsMovedError};
ghost use Rattle.tp_scenario.specs.mirrors.Parts as parts;

use crate::fault::{Fault, Kind, WalkError, shape_at};
use crate::names::{Declared, Names};
use crate::object::{field, object_at};
use crate::path::{Key, Path, Site};
use crate::values::{array_of, count_at, new_name_at, test_items, used_at, whole_in};
use std::alloc::{AllocError, Global};
use std::collections::BTreeMap;
use tp_json::{Json, in_order};
use tp_model::{ITEMS_MAX, SERVERS_MAX, VALUE_MAX};
use tp_types::{
    Admin, AdminId, Item, ItemId, List, Name, NoMemory, ServerDecl, ServerId, Version, both,
};

/// Servers, and the items of all of them.
#[derive(Drop)]
pub struct Served {
    pub servers: List<ServerDecl>,
    pub items: List<Item>,
}

/// Where a fault in the value of a key of `knows` stands.
#[tactic(auto, unfolding(crate::specs::Servers::key_site))]
fn key_site(server: usize, key: &[u8]) -> Site
    ensures { result ≡ servers.key_site server key.now }
{
    match Name::of(key) {
        Some(admin) => Site::Known { server, admin },
        None => Site::At(Path::Field(Key::Servers, server, Key::Knows)),
    }
}

/// The error of a key of `knows`.
fn key_error(server: usize, key: &[u8], kind: Kind) -> WalkError
    ensures { result ≡ error.Fault (record {
      kind = kind;
      site = servers.key_site server key.now;
    }) }
{
    WalkError::Fault(Fault {
        kind,
        site: key_site(server, key),
    })
}

fn moved_error(server: usize, key: &[u8], error: WalkError) -> WalkError
    ensures { IsMovedError result error (servers.key_site server key.now) }
{
    match error {
        WalkError::NoMemory => WalkError::NoMemory,
        WalkError::Fault(fault) => key_error(server, key, fault.kind),
    }
}

/// The version at a key of `knows`.
#[tactic(auto, unfolding(crate::specs::Servers::version_at))]
fn version_at(server: usize, key: &[u8], opening: u32, value: &Json) -> Result<Version, WalkError>
    ensures { Gives result (servers.version_at server key.now opening (view value.now)) }
{
    match count_at(Path::Whole, 1, u64::from(opening), Some(value)) {
        Ok(version) => Ok(Version(version as u32)),
        Err(error) => Err(moved_error(server, key, error)),
    }
}

/// The administrator that a key of `knows` names.
#[tactic(auto, unfolding(crate::specs::Servers::key_at))]
fn key_at(names: &Names, server: usize, key: &[u8]) -> Result<u32, WalkError>
    ensures { Gives result (servers.key_at names.now server key.now) }
{
    match names.place_of(key) {
        Some(place) => Ok(place),
        None => Err(key_error(server, key, Kind::Unknown)),
    }
}

fn opening_of(admins: &[Admin], place: u32) -> u32
    ensures { result ≡ servers.opening_number admins.now place }
{
    match admins.get(place as usize) {
        None => 0,
        Some(admin) => admin.opening.0,
    }
}

/// A key of `knows` and its value, into the versions so far.
#[tactic(auto, unfolding(crate::specs::Servers::put_known))]
fn put_known(
    admins: &[Admin],
    names: &Names,
    server: usize,
    versions: &mut List<Version>,
    key: &[u8],
    value: &Json,
) -> Result<(), WalkError>
    requires { names.now ≡ map admin_name admins.now }
    ensures { GivesNew result versions.new
        (servers.put_known admins.now server versions.old key.now (view value.now)) }
{
    let place = key_at(names, server, key)?;
    let opening = opening_of(admins, place);
    let version = version_at(server, key, opening, value)?;
    versions.put(place as usize, version);
    Ok(())
}

fn entries_of<'m, 'v, 'a>(
    members: &'m BTreeMap<&'a str, &'v Json<'a>>,
    alloc: Global,
) -> Result<Vec<(&'m &'a str, &'m &'v Json<'a>)>, AllocError>
    ensures { IfOk result (λ entries. lent entries.items ≡ members.now.entries) }
{
    members.iter().collect(alloc)
}

fn openings_of(alloc: Global, admins: &[Admin]) -> Result<List<Version>, NoMemory>
    ensures { IfOk result (λ made. made ≡ map servers.opening admins.now) }
{
    let mut made = List::new(alloc);
    for admin in admins {
        made.push(admin.opening)?;
    }
    Ok(made)
}

fn known_from(
    alloc: Global,
    admins: &[Admin],
    names: &Names,
    server: usize,
    entries: &[(&&str, &&Json)],
) -> Result<List<Version>, WalkError>
    requires { names.now ≡ map admin_name admins.now }
    ensures { Gives result
        (servers.known_from admins.now server (map servers.opening admins.now)
        (entries_view entries.now)) }
{
    let mut versions = openings_of(alloc, admins)?;
    for entry in entries {
        let (key, value) = *entry;
        put_known(admins, names, server, &mut versions, key.as_bytes(), value)?;
    }
    Ok(versions)
}

#[tactic(auto, using(crate::proofs::Views::entered))]
fn known_in<'v, 'a>(
    alloc: Global,
    admins: &[Admin],
    names: &Names,
    server: usize,
    members: &'v [(&'a str, Json<'a>)],
) -> Result<List<Version>, WalkError>
    requires { names.now ≡ map admin_name admins.now }
    ensures { Gives result
        (servers.known_from admins.now server (map servers.opening admins.now)
        (members_view members.now)) }
{
    let members = in_order(alloc, members)?;
    match entries_of(&members, alloc) {
        Err(_) => Err(WalkError::NoMemory),
        Ok(entries) => known_from(alloc, admins, names, server, entries.as_slice()),
    }
}

fn told_knows(
    alloc: Global,
    admins: &[Admin],
    names: &Names,
    server: usize,
    value: &Json,
) -> Result<List<Version>, WalkError>
    requires { names.now ≡ map admin_name admins.now }
    ensures { Gives result (servers.knows_in admins.now server (Some (view value.now))) }
{
    match value.as_object() {
        None => Err(shape_at(Path::Field(Key::Servers, server, Key::Knows))),
        Some(members) => known_in(alloc, admins, names, server, members),
    }
}

/// The version that a server knows of each administrator, the opening one where none is told.
#[tactic(auto, unfolding(crate::specs::Servers::knows_at))]
fn knows_at(
    alloc: Global,
    admins: &[Admin],
    names: &Names,
    server: usize,
    value: Option<&Json>,
) -> Result<List<Version>, WalkError>
    requires { names.now ≡ map admin_name admins.now }
    ensures { Gives result
        (servers.knows_at admins.now server (option_map (λ v. view v.now) value.entry)) }
{
    match value {
        None => Ok(openings_of(alloc, admins)?),
        Some(value) => told_knows(alloc, admins, names, server, value),
    }
}

/// An item of a server, after those of these names.
#[tactic(auto, unfolding(crate::specs::Servers::item_at))]
fn item_at<'a>(
    admins: &Names<'a>,
    names: &mut Names<'a>,
    server: u32,
    at: usize,
    value: &Json<'a>,
) -> Result<Item, WalkError>
    ensures value { Gives result (servers.item_at admins.now names.old server at (view value.now)) }
    ensures named { IfOk result (λ item. names.new ≡ names.old ++ item.name ∷ []) }
{
    let fields = object_at(
        Path::Entry(Key::Servers, server as usize, Key::Items, at),
        &[Key::Name, Key::Admin, Key::Min, Key::Max, Key::Value],
        &[],
        value,
    )?;
    let name = new_name_at(
        path_of(server, at, Key::Name),
        names,
        field(fields, Key::Name),
    );
    let admin = used_at(
        path_of(server, at, Key::Admin),
        admins,
        field(fields, Key::Admin),
    );
    let values = bounds_and_value_at(server, at, fields);
    let ((name, admin), (min, max, value)) = both(both(name, admin), values)?;
    Ok(Item {
        name,
        server: ServerId(server),
        admin: AdminId(admin),
        min,
        max,
        value,
    })
}

/// The least and the greatest value of an item, and its value at the start.
fn bounds_and_value_at(server: u32, at: usize, fields: &Json) -> Result<(i64, i64, i64), WalkError>
    ensures { Gives result (parts.bounds_and_value_at server at (view fields.now)) }
{
    let min = whole_in(
        path_of(server, at, Key::Min),
        -VALUE_MAX,
        VALUE_MAX,
        field(fields, Key::Min),
    )?;
    let max = whole_in(
        path_of(server, at, Key::Max),
        min,
        VALUE_MAX,
        field(fields, Key::Max),
    )?;
    let value = whole_in(
        path_of(server, at, Key::Value),
        min,
        max,
        field(fields, Key::Value),
    )?;
    Ok((min, max, value))
}

fn path_of(server: u32, at: usize, key: Key) -> Path
    ensures { result ≡ Path.Inner Key.Servers server Key.Items at key }
{
    Path::Inner(Key::Servers, server as usize, Key::Items, at, key)
}

/// Adds the items of a server to those of earlier ones.
fn each_item<'a>(
    alloc: Global,
    admins: &Names<'a>,
    names: &mut Names<'a>,
    server: u32,
    made: &mut List<Item>,
    values: &[Json<'a>],
) -> Result<(), WalkError>
    requires { names.old ≡ map servers.item_name made.old }
    ensures value { GivesNew result made.new
        (each (servers.item_in admins.now server (length made.old)) made.old
        (items_view values.now)) }
    ensures named { OnOk result (names.new ≡ map servers.item_name made.new) }
{
    let before = made.len();
    for value in values {
        let item = item_at(admins, names, server, made.len() - before, value)?;
        made.push(item)?;
    }
    Ok(())
}

/// The items of a server after those of earlier ones.
#[tactic(auto, unfolding(crate::specs::Servers::items_in))]
fn items_in<'a>(
    alloc: Global,
    admins: &Names<'a>,
    names: &mut Names<'a>,
    server: u32,
    made: &mut List<Item>,
    value: Option<&Json<'a>>,
) -> Result<(), WalkError>
    requires { names.old ≡ map servers.item_name made.old }
    ensures value { GivesNew result made.new
        (servers.items_in admins.now server made.old (option_map (λ v. view v.now) value.entry)) }
    ensures named { OnOk result (names.new ≡ map servers.item_name made.new) }
{
    let path = Path::Field(Key::Servers, server as usize, Key::Items);
    test_items(path, 0, ITEMS_MAX, value)?;
    match array_of(value) {
        None => Ok(()),
        Some(values) => each_item(alloc, admins, names, server, made, values),
    }
}

/// So many ids from this one on.
fn numbered(alloc: Global, first: u32, end: u32) -> Result<List<ItemId>, NoMemory>
    ensures { IfOk result (λ ids. ids ≡ servers.ids_from first (end - first)) }
{
    let mut ids = List::new(alloc);
    for number in first..end {
        ids.push(ItemId(number))?;
    }
    Ok(ids)
}

/// The ids of the items of a server, which are added to those of earlier ones.
fn ids_in<'a>(
    alloc: Global,
    admins: &Names<'a>,
    names: &mut Names<'a>,
    server: u32,
    made: &mut List<Item>,
    value: Option<&Json<'a>>,
) -> Result<List<ItemId>, WalkError>
    requires { names.old ≡ map servers.item_name made.old }
    ensures value { GivesNew result made.new
        (servers.items_in admins.now server made.old (option_map (λ v. view v.now) value.entry)) }
    ensures ids { IfOk result (λ ids.
        ids ≡ servers.ids_from (length made.old) (length made.new - length made.old)) }
    ensures named { IfOk result (λ ids. names.new ≡ map servers.item_name made.new) }
{
    let first = names.count();
    items_in(alloc, admins, names, server, made, value)?;
    Ok(numbered(alloc, first, names.count())?)
}

/// The next server, whose items are added to those of earlier ones.
#[tactic(auto, unfolding(crate::specs::Servers::server_in))]
fn server_in<'a>(
    alloc: Global,
    admins: &[Admin],
    names: &mut Declared<'a>,
    served: &mut Served,
    value: &Json<'a>,
) -> Result<(), WalkError>
    requires admins { names.old.admins ≡ map admin_name admins.now }
    requires servers { names.old.servers ≡ map servers.server_name served.old.servers }
    requires items { names.old.items ≡ map servers.item_name served.old.items }
    ensures value { GivesNew result served.new
        (servers.server_in admins.now served.old (view value.now)) }
    ensures named { OnOk result (names.new ≡ record names.old {
      servers = map servers.server_name served.new.servers;
      items = map servers.item_name served.new.items;
    }) }
{
    let at = names.servers.count();
    let server = at as usize;
    let fields = object_at(
        Path::Member(Key::Servers, server),
        &[Key::Name, Key::Items],
        &[Key::Knows],
        value,
    )?;
    let path = Path::Field(Key::Servers, server, Key::Name);
    let name = new_name_at(path, &mut names.servers, field(fields, Key::Name));
    let knows = knows_at(
        alloc,
        admins,
        &names.admins,
        server,
        field(fields, Key::Knows),
    );
    let items = ids_in(
        alloc,
        &names.admins,
        &mut names.items,
        at,
        &mut served.items,
        field(fields, Key::Items),
    );
    let ((name, knows), items) = both(both(name, knows), items)?;
    served.servers.push(ServerDecl { name, knows, items })?;
    Ok(())
}

fn each_server<'a>(
    alloc: Global,
    admins: &[Admin],
    names: &mut Declared<'a>,
    values: &[Json<'a>],
) -> Result<Served, WalkError>
    requires admins { names.old.admins ≡ map admin_name admins.now }
    requires servers { names.old.servers ≡ [] }
    requires items { names.old.items ≡ [] }
    ensures value { Gives result
        (through (servers.server_in admins.now) servers.nothing_served (items_view values.now)) }
    ensures named { IfOk result (λ served.
        names.new
        ≡ record names.old {
          servers = map servers.server_name served.servers;
          items = map servers.item_name served.items;
        }) }
{
    let mut served = Served {
        servers: List::new(alloc),
        items: List::new(alloc),
    };
    for value in values {
        server_in(alloc, admins, names, &mut served, value)?;
    }
    Ok(served)
}

/// The servers and their items, whose names are added to none so far.
#[tactic(auto, unfolding(crate::specs::Servers::servers_at))]
pub(crate) fn servers_at<'a>(
    alloc: Global,
    admins: &[Admin],
    names: &mut Declared<'a>,
    value: Option<&Json<'a>>,
) -> Result<Served, WalkError>
    requires admins { names.old.admins ≡ map admin_name admins.now }
    requires servers { names.old.servers ≡ [] }
    requires items { names.old.items ≡ [] }
    ensures value { Gives result
        (servers.servers_at admins.now (option_map (λ v. view v.now) value.entry)) }
    ensures named { IfOk result (λ served.
        names.new
        ≡ record names.old {
          servers = map servers.server_name served.servers;
          items = map servers.item_name served.items;
        }) }
{
    test_items(Path::Top(Key::Servers), 1, SERVERS_MAX, value)?;
    match array_of(value) {
        None => Ok(Served {
            servers: List::new(alloc),
            items: List::new(alloc),
        }),
        Some(values) => each_server(alloc, admins, names, values),
    }
}
