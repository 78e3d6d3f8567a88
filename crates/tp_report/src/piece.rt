//! The pieces that lines are made of: bytes, numbers, and names of the scenario.
//! An id that the scenario does not have prints as nothing.
ghost use Rattle.std.specs.Prelude.{◌≡◌, ◌++◌, ◌∷◌, [], OnOk};
ghost use Rattle.tp_report.specs.ReportText.{actor_name, admin_name, at_tokens, cred_name, item_name, policy_tokens, query_tokens, server_name, txn_name};
ghost use Rattle.tp_report.specs.Tokens.{text_of};

use itoa::{Buffer, Integer};
use tp_types::{
    Actor, AdminId, CredId, ItemId, NoMemory, Place, Scenario, ServerId, TxnId, Version,
};

pub fn put(out: &mut Vec<u8>, piece: &[u8]) -> Result<(), NoMemory>
    ensures { OnOk result (out.new.items ≡ out.old.items ++ piece.now) }
{
    out.extend_from_slice(piece)?;
    Ok(())
}

/// Puts one byte.
pub(crate) fn put_byte(out: &mut Vec<u8>, byte: u8) -> Result<(), NoMemory>
    ensures { OnOk result (out.new.items ≡ out.old.items ++ byte ∷ []) }
{
    out.push(byte)?;
    Ok(())
}

/// Puts a number in decimal.
pub fn put_number<I: Integer>(out: &mut Vec<u8>, number: I) -> Result<(), NoMemory>
    ensures { OnOk result (out.new.items ≡ out.old.items ++ I.text number) }
{
    put(out, Buffer::new().format(number).as_bytes())
}

/// Puts a piece, and a number in decimal behind it.
pub fn put_after<I: Integer>(out: &mut Vec<u8>, piece: &[u8], number: I) -> Result<(), NoMemory>
    ensures { OnOk result (out.new.items ≡ out.old.items ++ (piece.now ++ I.text number)) }
{
    put(out, piece)?;
    put_number(out, number)
}

pub fn put_admin(out: &mut Vec<u8>, scenario: &Scenario, id: AdminId) -> Result<(), NoMemory>
    ensures { OnOk result (out.new.items ≡ out.old.items ++ admin_name scenario.now id) }
{
    match scenario.admins.get(id.0 as usize) {
        None => Ok(()),
        Some(admin) => put(out, admin.name.bytes()),
    }
}

pub fn put_cred(out: &mut Vec<u8>, scenario: &Scenario, id: CredId) -> Result<(), NoMemory>
    ensures { OnOk result (out.new.items ≡ out.old.items ++ cred_name scenario.now id) }
{
    match scenario.creds.get(id.0 as usize) {
        None => Ok(()),
        Some(cred) => put(out, cred.name.bytes()),
    }
}

pub fn put_item(out: &mut Vec<u8>, scenario: &Scenario, id: ItemId) -> Result<(), NoMemory>
    ensures { OnOk result (out.new.items ≡ out.old.items ++ item_name scenario.now id) }
{
    match scenario.items.get(id.0 as usize) {
        None => Ok(()),
        Some(item) => put(out, item.name.bytes()),
    }
}

pub fn put_server(out: &mut Vec<u8>, scenario: &Scenario, id: ServerId) -> Result<(), NoMemory>
    ensures { OnOk result (out.new.items ≡ out.old.items ++ server_name scenario.now id) }
{
    match scenario.servers.get(id.0 as usize) {
        None => Ok(()),
        Some(server) => put(out, server.name.bytes()),
    }
}

pub fn put_txn(out: &mut Vec<u8>, scenario: &Scenario, id: TxnId) -> Result<(), NoMemory>
    ensures { OnOk result (out.new.items ≡ out.old.items ++ txn_name scenario.now id) }
{
    match scenario.txns.get(id.0 as usize) {
        None => Ok(()),
        Some(txn) => put(out, txn.name.bytes()),
    }
}

/// Puts an actor's name. The master and the authority never crash, so no run's fact names them.
pub fn put_actor(out: &mut Vec<u8>, scenario: &Scenario, actor: Actor) -> Result<(), NoMemory>
    ensures { OnOk result (out.new.items ≡ out.old.items ++ actor_name scenario.now actor) }
{
    match actor {
        Actor::Server(id) => put_server(out, scenario, id),
        Actor::Coordinator(id) => put_txn(out, scenario, id),
        Actor::Master => put(out, b"master"),
        Actor::Authority => put(out, b"authority"),
    }
}

/// Puts a query and the server that has its item, each with a space behind it.
pub(crate) fn put_query(
    out: &mut Vec<u8>,
    scenario: &Scenario,
    query: u32,
    server: ServerId,
) -> Result<(), NoMemory>
    ensures { OnOk result
        (out.new.items ≡ out.old.items ++ text_of (query_tokens scenario.now query server)) }
{
    put_byte(out, b'q')?;
    put_number(out, query)?;
    put_byte(out, b' ')?;
    put_server(out, scenario, server)?;
    put_byte(out, b' ')
}

/// Puts an administrator and a version of its policy, each with a space behind it.
pub(crate) fn put_policy(
    out: &mut Vec<u8>,
    scenario: &Scenario,
    admin: AdminId,
    version: Version,
) -> Result<(), NoMemory>
    ensures { OnOk result
        (out.new.items ≡ out.old.items ++ text_of (policy_tokens scenario.now admin version)) }
{
    put_admin(out, scenario, admin)?;
    put_byte(out, b' ')?;
    put_number(out, version.0)?;
    put_byte(out, b' ')
}

/// Puts the place of a step, and ends the line.
pub(crate) fn put_at(out: &mut Vec<u8>, place: Place) -> Result<(), NoMemory>
    ensures { OnOk result (out.new.items ≡ out.old.items ++ text_of (at_tokens place)) }
{
    put(out, b"at ")?;
    put_number(out, place)?;
    put_byte(out, b'\n')
}
