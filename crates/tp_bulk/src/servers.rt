//! What the scenario has beside its transactions.
ghost use Rattle.std.specs.Prelude.{◌≡◌, ◌++◌, ◌<◌, ◌^◌, IfOk, decimal, map};
ghost use Rattle.std.specs.List.{range_with_len};
ghost use Rattle.tp_bulk.specs.Bulk.{administrator, allows_all, item_at, server_at};

use itoa::Buffer;
use std::alloc::Global;
use tp_types::{
    Admin, AdminId, Cond, Item, ItemId, List, Name, NoMemory, Pattern, Policy, Rule, ServerDecl,
    ServerId, Version,
};

/// A name of these bytes. They spell one.
pub(crate) fn name(bytes: &[u8]) -> Result<Name, NoMemory>
    ensures { IfOk result (λ name. name ≡ bytes.now) }
{
    match Name::of(bytes) {
        Some(name) => Ok(name),
        None => Err(NoMemory),
    }
}

/// The bytes of the longest name of a letter and a number.
pub(crate) const NUMBERED_MAX: usize = 11;

/// A name of a letter and a number. It is spelled in this room, which serves one name after another.
pub(crate) fn numbered(
    alloc: Global,
    room: &mut Vec<u8>,
    letter: &[u8],
    number: u32,
) -> Result<Name, NoMemory>
    ensures { IfOk result (λ name. name ≡ letter.now ++ decimal number) }
{
    room.clear();
    room.extend_from_slice(letter)?;
    room.extend_from_slice(Buffer::new().format(number).as_bytes())?;
    name(room.as_slice())
}

fn policy(alloc: Global) -> Result<Policy, NoMemory>
    ensures { IfOk result (λ made. made ≡ allows_all) }
{
    let rules = List::of_one(
        alloc,
        Rule {
            action: None,
            pattern: Pattern::All,
            cond: Cond::True,
        },
    )?;
    Ok(Policy { rules })
}

pub(crate) fn admin(alloc: Global) -> Result<Admin, NoMemory>
    ensures { IfOk result (λ made. made ≡ administrator) }
{
    let mut library = List::from_vec(Vec::with_capacity(alloc, 2)?);
    library.push(policy(alloc)?)?;
    library.push(policy(alloc)?)?;
    Ok(Admin {
        name: name(b"hr")?,
        library,
        opening: Version(2),
    })
}

fn item(alloc: Global, room: &mut Vec<u8>, number: u32) -> Result<Item, NoMemory>
    ensures { IfOk result (λ made. made ≡ item_at number) }
{
    Ok(Item {
        name: numbered(alloc, room, b"i", number)?,
        server: ServerId(number / 4),
        admin: AdminId(0),
        min: 0,
        max: 1_000_000,
        value: 100,
    })
}

pub(crate) fn items(alloc: Global) -> Result<List<Item>, NoMemory>
    ensures { IfOk result (λ made. made ≡ map item_at (range_with_len 0 16)) }
{
    let mut items = List::from_vec(Vec::with_capacity(alloc, 16)?);
    let mut room = Vec::with_capacity(alloc, NUMBERED_MAX)?;
    for number in 0..16 {
        items.push(item(alloc, &mut room, number)?)?;
    }
    Ok(items)
}

fn items_from(alloc: Global, first: u32) -> Result<List<ItemId>, NoMemory>
    requires { first < 2 ^ 31 }
    ensures { IfOk result (λ made.
        made ≡ map (λ item. record { 0 = item }) (range_with_len first 4)) }
{
    let mut items = List::from_vec(Vec::with_capacity(alloc, 4)?);
    items.push(ItemId(first))?;
    items.push(ItemId(first + 1))?;
    items.push(ItemId(first + 2))?;
    items.push(ItemId(first + 3))?;
    Ok(items)
}

fn server(alloc: Global, room: &mut Vec<u8>, number: u32) -> Result<ServerDecl, NoMemory>
    requires { number < 4 }
    ensures { IfOk result (λ made. made ≡ server_at number) }
{
    Ok(ServerDecl {
        name: numbered(alloc, room, b"s", number)?,
        knows: List::of_one(alloc, Version(number % 2 + 1))?,
        items: items_from(alloc, 4 * number)?,
    })
}

pub(crate) fn servers(alloc: Global) -> Result<List<ServerDecl>, NoMemory>
    ensures { IfOk result (λ made. made ≡ map server_at (range_with_len 0 4)) }
{
    let mut servers = List::from_vec(Vec::with_capacity(alloc, 4)?);
    let mut room = Vec::with_capacity(alloc, NUMBERED_MAX)?;
    for number in 0..4 {
        servers.push(server(alloc, &mut room, number)?)?;
    }
    Ok(servers)
}
