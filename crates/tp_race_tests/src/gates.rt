//! Gates that hold servers.
use std::sync::atomic::AtomicU64;
use std::sync::atomic::Ordering::SeqCst;
use tp_race::Gate;

/// After so many turns a hold is given up, and its test fails.
const TURNS: u64 = 500_000_000;

/// So many turns a server is held that one alone should pass.
const STAY: u64 = 10_000_000;

/// A gate that holds nobody.
pub struct Open;

impl Gate for Open {
    fn pass(&self, _point: u32) {}
}

/// What one of two servers has done at a gate, and what it is held for.
#[derive(Drop)]
pub struct Server {
    /// How many of its acts have begun.
    begun: AtomicU64,
    /// Its first act is held until so many acts of the other one have begun.
    awaits: u64,
}

impl Server {
    const fn held_for(awaits: u64) -> Server {
        Server {
            begun: AtomicU64::new(0),
            awaits,
        }
    }
}

/// A gate that holds the first act of each of two servers until so many acts of the other one have begun.
#[derive(Drop)]
pub struct Held {
    first: Server,
    second: Server,
    /// How many holds were given up.
    missed: AtomicU64,
}

impl Held {
    /// For how many acts of the other server the first and the second one are held.
    pub const fn for_acts(first: u64, second: u64) -> Held {
        Held {
            first: Server::held_for(first),
            second: Server::held_for(second),
            missed: AtomicU64::new(0),
        }
    }

    /// Whether both servers passed, and none for want of patience.
    pub fn was_met(&self) -> bool {
        self.missed.load(SeqCst) == 0
            && self.first.begun.load(SeqCst) > 0
            && self.second.begun.load(SeqCst) > 0
    }
}

impl Gate for Held {
    fn pass(&self, point: u32) {
        let (own, other) = match point {
            0 => (&self.first, &self.second),
            _ => (&self.second, &self.first),
        };
        if own.begun.fetch_add(1, SeqCst) > 0 {
            return;
        }
        for _ in 0..TURNS {
            // where one hold was given up the other one is in vain
            if other.begun.load(SeqCst) >= own.awaits || self.missed.load(SeqCst) > 0 {
                return;
            }
        }
        self.missed.fetch_add(1, SeqCst);
    }
}

/// A gate that holds nobody, and counts who passes.
#[derive(Drop)]
pub struct Counted {
    passed: AtomicU64,
}

impl Counted {
    pub const fn new() -> Counted {
        Counted {
            passed: AtomicU64::new(0),
        }
    }

    /// How many acts have passed.
    pub fn count(&self) -> u64 {
        self.passed.load(SeqCst)
    }
}

impl Gate for Counted {
    fn pass(&self, _point: u32) {
        self.passed.fetch_add(1, SeqCst);
    }
}

/// A gate at whose third server one alone may be at a time. Who is there is held until acts of both other servers have
/// begun, so that each of two clients is on its way, and then for some turns more, in which the other one comes there.
#[derive(Drop)]
pub struct Narrow {
    /// How many acts of the first and of the second server have begun.
    first: AtomicU64,
    second: AtomicU64,
    /// How many are at the third server now.
    inside: AtomicU64,
    /// How many have been there.
    passed: AtomicU64,
    /// How many of them found somebody there.
    crowded: AtomicU64,
    /// How many holds were given up.
    missed: AtomicU64,
}

impl Narrow {
    pub const fn new() -> Narrow {
        Narrow {
            first: AtomicU64::new(0),
            second: AtomicU64::new(0),
            inside: AtomicU64::new(0),
            passed: AtomicU64::new(0),
            crowded: AtomicU64::new(0),
            missed: AtomicU64::new(0),
        }
    }

    /// Whether two at least were at the third server while both clients were on their way, and never two at a time.
    pub fn was_passed_alone(&self) -> bool {
        self.missed.load(SeqCst) == 0
            && self.crowded.load(SeqCst) == 0
            && self.passed.load(SeqCst) >= 2
    }

    /// Waits until both other servers have begun an act.
    fn await_others(&self) {
        for _ in 0..TURNS {
            // where one hold was given up all are in vain
            if self.first.load(SeqCst) > 0 && self.second.load(SeqCst) > 0
                || self.missed.load(SeqCst) > 0
            {
                return;
            }
        }
        self.missed.fetch_add(1, SeqCst);
    }

    /// Waits for somebody else to come.
    fn stay(&self) {
        for _ in 0..STAY {
            if self.crowded.load(SeqCst) > 0 {
                return;
            }
        }
    }
}

impl Gate for Narrow {
    fn pass(&self, point: u32) {
        match point {
            0 => {
                self.first.fetch_add(1, SeqCst);
            }
            1 => {
                self.second.fetch_add(1, SeqCst);
            }
            _ => {
                if self.inside.fetch_add(1, SeqCst) > 0 {
                    self.crowded.fetch_add(1, SeqCst);
                }
                self.await_others();
                self.stay();
                self.passed.fetch_add(1, SeqCst);
                self.inside.fetch_sub(1, SeqCst);
            }
        }
    }
}
