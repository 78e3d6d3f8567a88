//! A small scenario, for stores and offices.
use crate::made::{list, name};
use std::process::Abort;
use tp_types::{
    Admin, AdminId, Credential, Item, ItemId, Level, List, Policy, Scenario, Scheme, ServerDecl,
    ServerId, Transaction, Value, Version,
};

const MOST: i64 = 1_000_000_000_000_000;

fn item(rt: &(impl Abort + AllocGlobal), min: i64, max: i64, value: i64) -> Item {
    Item {
        name: name(rt, "a"),
        server: ServerId(0),
        admin: AdminId(0),
        min,
        max,
        value,
    }
}

/// An administrator with so many versions, each of which allows nothing.
fn admin(rt: &(impl Abort + AllocGlobal), opening: u32, versions: u32) -> Admin {
    let mut library = List::new(rt.alloc());
    for _version in 0..versions {
        let rules = List::new(rt.alloc());
        library
            .push(Policy { rules })
            .expect(rt, "memory for a policy");
    }
    Admin {
        name: name(rt, "a"),
        library,
        opening: Version(opening),
    }
}

fn credentials(rt: &(impl Abort + AllocGlobal), count: u32) -> List<Credential> {
    let mut made = List::new(rt.alloc());
    for _number in 0..count {
        let credential = Credential {
            name: name(rt, "a"),
            issuer: name(rt, "a"),
            subject: name(rt, "a"),
            attr: name(rt, "a"),
            value: Value::Number(1),
            from: 0,
            until: 9,
        };
        made.push(credential).expect(rt, "memory for a credential");
    }
    made
}

fn transaction(rt: &(impl Abort + AllocGlobal)) -> Transaction {
    Transaction {
        name: name(rt, "a"),
        subject: name(rt, "a"),
        scheme: Scheme::Deferred,
        level: Level::View,
        rounds: 8,
        creds: List::new(rt.alloc()),
        queries: List::new(rt.alloc()),
    }
}

/// Three items, the first from -5 to 9 with the value 3, the second always 0, the third within plus or minus 10^15, its greatest
/// value; two transactions; four credentials; two administrators of the versions 3 and 1, of which the server knows 2 and 1. The
/// clock stands at 7. All names are one, since nothing goes by them.
pub fn small(rt: &(impl Abort + AllocGlobal)) -> Scenario {
    let server = ServerDecl {
        name: name(rt, "a"),
        knows: list(rt, [Version(2), Version(1)]),
        items: list(rt, [ItemId(0), ItemId(1), ItemId(2)]),
    };
    let first = item(rt, -5, 9, 3);
    let second = item(rt, 0, 0, 0);
    let third = item(rt, -MOST, MOST, MOST);
    Scenario {
        admins: list(rt, [admin(rt, 3, 5), admin(rt, 1, 1)]),
        clock: 7,
        creds: credentials(rt, 4),
        servers: list(rt, [server]),
        items: list(rt, [first, second, third]),
        txns: list(rt, [transaction(rt), transaction(rt)]),
        steps: List::new(rt.alloc()),
        clients: List::new(rt.alloc()),
        publishers: List::new(rt.alloc()),
        officers: List::new(rt.alloc()),
    }
}
