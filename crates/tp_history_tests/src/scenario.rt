//! The scenario of all histories: three servers with an item each, two administrators, and a clock that begins at 1.
use std::process::Abort;
use tp_policy_text::parse;
use tp_types::{
    Admin, AdminId, CredId, Credential, Item, ItemId, Level, List, Name, Operand, Query, Scenario,
    Scheme, ServerDecl, ServerId, Term, Transaction, Value, Version,
};

// ---- administrators

/// The administrator of the items x and z, whose first version wants a role for a write of x, the second a role and a grade,
/// and the third denies all.
pub const HR: u32 = 0;

/// The administrator of the item y. Its first version allows all by either of two rules, and the second wants a low
/// grade or a role.
pub const IT: u32 = 1;

const OF_HR: &[&str] = &[
    "allow write on x if ca.role = clerk; allow any on z* if true;",
    "allow any on * if ca.role = clerk and ca.grade >= 3;",
    "",
];

const OF_IT: &[&str] = &[
    "allow any on * if true; allow any on y if true;",
    "allow any on * if ca.grade <= 2 or ca.role = clerk;",
];

// ---- credentials

/// A credential that says a grade of its subject, or else the role of a clerk.
#[derive(Clone, Copy)]
struct Card {
    issuer: &'static str,
    subject: &'static str,
    grade: Option<i64>,
    from: u64,
    until: u64,
}

/// Ann's role till 9.
const ROLE: Card = Card {
    issuer: "ca",
    subject: "ann",
    grade: None,
    from: 1,
    until: 9,
};

/// Six credentials: ann's role till 9, her grade, bob's role, one of ann's that she does not present, one of an issuer that
/// no policy names, and one that begins at 5.
const CARDS: &[Card] = &[
    ROLE,
    Card {
        grade: Some(3),
        until: 100,
        ..ROLE
    },
    Card {
        subject: "bob",
        until: 100,
        ..ROLE
    },
    Card { until: 100, ..ROLE },
    Card {
        issuer: "cb",
        until: 100,
        ..ROLE
    },
    Card {
        from: 5,
        until: 100,
        ..ROLE
    },
];

// ---- transactions

/// Of ann, who reads y and writes x: 7 more.
pub const PAY: u32 = 0;

/// Of ann, who writes 1 to x under global consistency, in at most three rounds.
pub const SURE: u32 = 1;

/// Of bob, who has the role, and writes x.
pub const BOBS: u32 = 2;

/// Of eve, who has nothing, and writes x.
pub const EVES: u32 = 3;

/// Of ann, who writes 1 to y under punctual.
pub const SLOW: u32 = 4;

/// Of ann, who writes y, reads it, and writes it again.
pub const BACK: u32 = 5;

/// Of ann, who writes 200 to x, and then 101.
pub const OVER: u32 = 6;

/// Of ann, who reads x, writes it twice over less once, and then writes 100.
pub const WIDE: u32 = 7;

/// Of ann, who reads x, writes its negative less one, and then writes a register that nothing was read into.
pub const LEAST: u32 = 8;

/// Of ann, who writes 1 to x, and presents a credential that begins at 5.
pub const SOON: u32 = 9;

/// Of ann, who reads y, writes it twice over to x, reads that, and writes to x what it is above y.
pub const HUGE: u32 = 10;

/// Of ann, who has the role, writes y and reads it, under punctual.
pub const PUNCTUAL: u32 = 11;

/// The same under incremental.
pub const INCREMENTAL: u32 = 12;

/// The same under continuous.
pub const CONTINUOUS: u32 = 13;

/// These under global consistency.
pub const PUNCTUAL_SURE: u32 = 14;

pub const INCREMENTAL_SURE: u32 = 15;

pub const CONTINUOUS_SURE: u32 = 16;

/// Of ann, who writes y and z, under incremental.
pub const BOTH: u32 = 17;

/// The same under global consistency.
pub const BOTH_SURE: u32 = 18;

/// Of ann, who writes y and z, under continuous and global consistency.
pub const BOTH_ANEW: u32 = 19;

/// Of ann, who writes y and reads it, under deferred and global consistency.
pub const DEFERRED_SURE: u32 = 20;

const X: ItemId = ItemId(0);

const Y: ItemId = ItemId(1);

const Z: ItemId = ItemId(2);

/// A read of an item into a register, a write of a number to an item, or a write of a sum.
#[derive(Clone, Copy)]
enum Asked {
    Read(ItemId, u32),
    Put(ItemId, i64),
    Sum(ItemId, &'static [Term]),
}

const R1: Term = Term {
    minus: false,
    operand: Operand::Register(1),
};

const LESS_R1: Term = Term { minus: true, ..R1 };

const R2: Term = Term {
    operand: Operand::Register(2),
    ..R1
};

const R3: Term = Term {
    operand: Operand::Register(3),
    ..R1
};

const SEVEN: Term = Term {
    operand: Operand::Constant(7),
    ..R1
};

const LESS_ONE: Term = Term {
    minus: true,
    operand: Operand::Constant(1),
};

/// A transaction, as the table has it.
#[derive(Clone, Copy)]
struct Plan {
    subject: &'static str,
    scheme: Scheme,
    level: Level,
    creds: &'static [u32],
    queries: &'static [Asked],
}

/// Of ann under view consistency, who presents nothing and asks for nothing.
const PLAIN: Plan = Plan {
    subject: "ann",
    scheme: Scheme::Deferred,
    level: Level::View,
    creds: &[],
    queries: &[],
};

/// Of ann, who has the role, writes y and reads it.
const TWICE: Plan = Plan {
    creds: &[0],
    queries: &[Asked::Put(Y, 3), Asked::Read(Y, 1)],
    ..PLAIN
};

/// Of ann, who writes y and z.
const EITHER: Plan = Plan {
    scheme: Scheme::Incremental,
    queries: &[Asked::Put(Y, 3), Asked::Put(Z, 4)],
    ..PLAIN
};

const PLANS: &[Plan] = &[
    Plan {
        creds: &[0, 1, 2, 4],
        queries: &[Asked::Read(Y, 1), Asked::Sum(X, &[R1, SEVEN])],
        ..PLAIN
    },
    Plan {
        level: Level::Global,
        creds: &[0],
        queries: &[Asked::Put(X, 1)],
        ..PLAIN
    },
    Plan {
        subject: "bob",
        creds: &[2],
        queries: &[Asked::Put(X, 9)],
        ..PLAIN
    },
    Plan {
        subject: "eve",
        queries: &[Asked::Put(X, 3)],
        ..PLAIN
    },
    Plan {
        scheme: Scheme::Punctual,
        queries: &[Asked::Put(Y, 1)],
        ..PLAIN
    },
    Plan {
        queries: &[
            Asked::Put(Y, 3),
            Asked::Read(Y, 2),
            Asked::Sum(Y, &[R2, R2, LESS_ONE]),
        ],
        ..PLAIN
    },
    Plan {
        queries: &[Asked::Put(X, 200), Asked::Put(X, 101)],
        ..PLAIN
    },
    Plan {
        queries: &[
            Asked::Read(X, 1),
            Asked::Sum(X, &[R1, R1, LESS_R1]),
            Asked::Put(X, 100),
        ],
        ..PLAIN
    },
    Plan {
        queries: &[
            Asked::Read(X, 1),
            Asked::Sum(X, &[LESS_R1, LESS_ONE]),
            Asked::Sum(X, &[R3]),
        ],
        ..PLAIN
    },
    Plan {
        creds: &[5],
        queries: &[Asked::Put(X, 1)],
        ..PLAIN
    },
    Plan {
        queries: &[
            Asked::Read(Y, 1),
            Asked::Sum(X, &[R1, R1]),
            Asked::Read(X, 2),
            Asked::Sum(X, &[R2, LESS_R1]),
        ],
        ..PLAIN
    },
    Plan {
        scheme: Scheme::Punctual,
        ..TWICE
    },
    Plan {
        scheme: Scheme::Incremental,
        ..TWICE
    },
    Plan {
        scheme: Scheme::Continuous,
        ..TWICE
    },
    Plan {
        scheme: Scheme::Punctual,
        level: Level::Global,
        ..TWICE
    },
    Plan {
        scheme: Scheme::Incremental,
        level: Level::Global,
        ..TWICE
    },
    Plan {
        scheme: Scheme::Continuous,
        level: Level::Global,
        ..TWICE
    },
    EITHER,
    Plan {
        level: Level::Global,
        ..EITHER
    },
    Plan {
        scheme: Scheme::Continuous,
        level: Level::Global,
        ..EITHER
    },
    Plan {
        level: Level::Global,
        ..TWICE
    },
];

// ---- what the tables say, made

fn named(rt: &impl Abort, text: &str) -> Name {
    Name::of(text.as_bytes()).expect(rt, "a name")
}

/// A list of the members of an array.
fn list<T: Drop, const N: usize>(rt: &(impl Abort + AllocGlobal), members: [T; N]) -> List<T> {
    let made = Vec::from_array(rt.alloc(), members);
    List::from_vec(made.ok().expect(rt, "memory for a list"))
}

/// The ids of these numbers.
pub fn ids(rt: &(impl Abort + AllocGlobal), numbers: &[u32]) -> List<CredId> {
    let mut made = List::new(rt.alloc());
    for number in numbers {
        made.push(CredId(*number)).expect(rt, "memory for an id");
    }
    made
}

/// An administrator with a library of these texts.
fn admin(rt: &(impl Abort + AllocGlobal), name: &str, texts: &[&str]) -> Admin {
    let mut library = List::new(rt.alloc());
    for text in texts {
        let policy = parse(rt.alloc(), text.as_bytes()).expect(rt, "a policy");
        library.push(policy).expect(rt, "memory for a policy");
    }
    Admin {
        name: named(rt, name),
        library,
        opening: Version(1),
    }
}

fn credential(rt: &(impl Abort + AllocGlobal), card: &Card) -> Credential {
    let (attr, value) = match card.grade {
        Some(grade) => (named(rt, "grade"), Value::Number(grade)),
        None => (named(rt, "role"), Value::Word(named(rt, "clerk"))),
    };
    Credential {
        name: named(rt, "card"),
        issuer: named(rt, card.issuer),
        subject: named(rt, card.subject),
        attr,
        value,
        from: card.from,
        until: card.until,
    }
}

fn credentials(rt: &(impl Abort + AllocGlobal)) -> List<Credential> {
    let mut made = List::new(rt.alloc());
    for card in CARDS {
        let credential = credential(rt, card);
        made.push(credential).expect(rt, "memory for a credential");
    }
    made
}

fn item(rt: &(impl Abort + AllocGlobal), name: &str, server: u32, admin: u32, value: i64) -> Item {
    Item {
        name: named(rt, name),
        server: ServerId(server),
        admin: AdminId(admin),
        min: 0,
        max: 100,
        value,
    }
}

/// A server with one item, which knows the first versions.
fn server(rt: &(impl Abort + AllocGlobal), name: &str, item: ItemId) -> ServerDecl {
    ServerDecl {
        name: named(rt, name),
        knows: list(rt, [Version(1), Version(1)]),
        items: list(rt, [item]),
    }
}

fn sum(rt: &(impl Abort + AllocGlobal), item: ItemId, terms: &[Term]) -> Query {
    let expr = Vec::from_slice(rt.alloc(), terms).expect(rt, "memory for a sum");
    Query::Write {
        item,
        expr: List::from_vec(expr),
    }
}

fn query(rt: &(impl Abort + AllocGlobal), asked: Asked) -> Query {
    match asked {
        Asked::Read(item, into) => Query::Read { item, into },
        Asked::Put(item, value) => {
            let operand = Operand::Constant(value);
            sum(rt, item, &[Term { operand, ..R1 }])
        }
        Asked::Sum(item, terms) => sum(rt, item, terms),
    }
}

fn transaction(rt: &(impl Abort + AllocGlobal), plan: &Plan) -> Transaction {
    let mut queries = List::new(rt.alloc());
    for asked in plan.queries {
        let query = query(rt, *asked);
        queries.push(query).expect(rt, "memory for a query");
    }
    Transaction {
        name: named(rt, "t"),
        subject: named(rt, plan.subject),
        scheme: plan.scheme,
        level: plan.level,
        rounds: 3,
        creds: ids(rt, plan.creds),
        queries,
    }
}

fn transactions(rt: &(impl Abort + AllocGlobal)) -> List<Transaction> {
    let mut made = List::new(rt.alloc());
    for plan in PLANS {
        let transaction = transaction(rt, plan);
        made.push(transaction)
            .expect(rt, "memory for a transaction");
    }
    made
}

pub fn scenario(rt: &(impl Abort + AllocGlobal)) -> Scenario {
    let s0 = server(rt, "s0", X);
    let s1 = server(rt, "s1", Y);
    let s2 = server(rt, "s2", Z);
    let x = item(rt, "x", 0, HR, 5);
    let y = item(rt, "y", 1, IT, 10);
    let z = item(rt, "z", 2, HR, 0);
    Scenario {
        admins: list(rt, [admin(rt, "hr", OF_HR), admin(rt, "it", OF_IT)]),
        clock: 1,
        creds: credentials(rt),
        servers: list(rt, [s0, s1, s2]),
        items: list(rt, [x, y, z]),
        txns: transactions(rt),
        steps: List::new(rt.alloc()),
        clients: List::new(rt.alloc()),
        publishers: List::new(rt.alloc()),
        officers: List::new(rt.alloc()),
    }
}
