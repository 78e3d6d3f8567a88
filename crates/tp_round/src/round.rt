//! A round: which servers are asked, what they replied, and what is judged of it.
ghost use Rattle.std.specs.Prelude.{◌≡◌, ◌≤◌, ◌++◌, map, replicate, option_to_list, IfOk, OnOk, OnErr};
ghost use Rattle.std.specs.List.{list_any};
ghost use Rattle.std.specs.Option.{option_copied};
ghost use Rattle.tp_model.specs.Levels.{is_global};
ghost use Rattle.tp_model.specs.Limits.{admins_limit};
ghost use Rattle.tp_round.specs.declared.round.Judged.TheVariants as judged;
ghost use Rattle.tp_round.specs.Judge as rule;
ghost use Rattle.tp_round.specs.Replies as replies;
ghost use Rattle.tp_round.specs.mirrors.Places as places;

use crate::aim::{aim_of, any_outdated, met_by, named_by, renew};
use crate::replies::{least_false, proofs_of, proofs_out_of};
use std::alloc::Global;
use std::mem;
use tp_model::ADMINS_MAX;
use tp_types::{
    AdminId, Level, List, Met, NoMemory, Reading, ServerId, TryClone, Verdict, Version,
};

/// A server of a round.
/// The place of the reply is empty while it is awaited: a reply that is kept takes no memory, and an update
/// empties places in place.
#[derive(Drop)]
pub struct Target {
    pub server: ServerId,
    /// Its verdicts; None while its reply is awaited.
    pub reply: Option<List<Verdict>>,
}

/// What an update wants of a server that is out of date.
/// The round keeps what it named for those who ask again, and beside it the targets of all administrators, also
/// of those of which no server is out of date.
#[derive(Drop)]
pub struct Wanted {
    pub server: ServerId,
    /// The version of each administrator of which it has a proof, in order of the administrators' numbers.
    pub want: List<(AdminId, Version)>,
}

impl TryClone for Wanted {
    fn try_clone(&self, alloc: Global) -> Result<Self, NoMemory> {
        Ok(Wanted {
            server: self.server,
            want: self.want.try_clone(alloc)?,
        })
    }
}

/// What is judged of a round's replies.
#[derive(Drop)]
pub enum Judged {
    /// A reply is missing, or the master is to be read first.
    Waiting,
    /// No server is out of date, and all proofs are true.
    AllTrue,
    /// No server is out of date, and of the false proofs this is the one of least query.
    False { verdict: Verdict },
    /// So many rounds as the limit allows have met a newer version at the master: what each of them met.
    Spent(List<Met>),
    /// These servers are to evaluate again, at these versions. The next round has begun.
    Update(List<Wanted>),
}

/// A round of validation. Servers evaluate the proofs of their queries and reply; those whose versions are not the targets are
/// asked again, at the targets, while the others' replies stay.
#[derive(Drop)]
pub struct Round {
    /// The level of each administrator, by its number. One that the list lacks is under view consistency.
    pub levels: List<Level>,
    /// Whether the master is read in each round.
    pub reads: bool,
    /// How many rounds may meet a newer version at the master.
    pub limit: u32,
    /// Counted from 1. One that stands at the greatest number stays there.
    pub number: u32,
    /// The servers, in the order in which they were given.
    pub targets: List<Target>,
    /// The target of each administrator at the last update, in order of number; empty in the first round.
    pub aim: List<(AdminId, Version)>,
    /// What the last update wanted; empty in the first round.
    pub named: List<Wanted>,
    /// What earlier rounds met at the master.
    pub mets: List<Met>,
}

fn levels_of(alloc: Global, level: Level) -> Result<List<Level>, NoMemory>
    ensures { IfOk result (λ made. made ≡ replicate admins_limit level) }
{
    let mut made = Vec::with_capacity(alloc, ADMINS_MAX)?;
    made.resize(ADMINS_MAX, level)?;
    Ok(List::from_vec(made))
}

fn awaited(alloc: Global, servers: &[ServerId]) -> Result<List<Target>, NoMemory>
    ensures { IfOk result (λ made. made ≡ map rule.new_target servers.now) }
{
    let mut made = List::from_vec(Vec::with_capacity(alloc, servers.len())?);
    for server in servers {
        made.push(Target {
            server: *server,
            reply: None,
        })?;
    }
    Ok(made)
}

fn place_awaited(targets: &[Target], server: ServerId) -> usize
    ensures { result ≡ places.place_awaited targets.now server }
{
    for (at, target) in targets.iter().enumerate() {
        if target.server == server && target.reply.is_none() {
            return at;
        }
    }
    targets.len()
}

fn is_missing(targets: &[Target]) -> bool
    ensures { result ≡ list_any rule.is_missing targets.now }
{
    targets.iter().any(|target| target.reply.is_none())
}

fn agreed(alloc: Global, targets: &[Target]) -> Result<Judged, NoMemory>
    ensures { IfOk result (λ made.
        made ≡ rule.final_answer (replies.least_false (replies.proofs_in targets.now))) }
{
    match least_false(targets) {
        None => Ok(Judged::AllTrue),
        Some(verdict) => Ok(Judged::False {
            verdict: verdict.try_clone(alloc)?,
        }),
    }
}

fn with_met(alloc: Global, mets: &List<Met>, met: Option<Met>) -> Result<List<Met>, NoMemory>
    ensures { IfOk result (λ made. made ≡ mets.now ++ option_to_list met) }
{
    let mut made = mets.try_clone(alloc)?;
    if let Some(met) = met {
        made.push(met)?;
    }
    Ok(made)
}

impl Round {
    /// The first round over these servers, with room for their replies. Each administrator has this level; under global
    /// consistency each round reads the master, and at most `limit` rounds may meet a newer version there.
    /// Of a server that stands twice two replies are awaited; a coordinator's servers differ, as they stand in order of
    /// number.
    pub fn start(
        alloc: Global,
        targets: &[ServerId],
        limit: u32,
        level: Level,
    ) -> Result<Round, NoMemory>
        ensures { IfOk result (λ made. made ≡ rule.first_round targets.now limit
            (replicate admins_limit level) (is_global level)) }
    {
        Ok(Round {
            levels: levels_of(alloc, level)?,
            reads: matches!(level, Level::Global),
            limit,
            number: 1,
            targets: awaited(alloc, targets)?,
            aim: List::new(alloc),
            named: List::new(alloc),
            mets: List::new(alloc),
        })
    }

    /// Keeps a server's reply where it was awaited, and says whether it was. Else nothing changes, and the reply is dropped.
    /// It takes no memory.
    pub fn reply(&mut self, server: ServerId, verdicts: List<Verdict>) -> bool
        ensures awaited { result ≡ rule.is_awaited self.old.targets server }
        ensures kept { self.new ≡ rule.after_reply self.old server verdicts }
    {
        let at = place_awaited(self.targets.as_slice(), server);
        if at == self.targets.len() {
            return false;
        }
        let kept = Target {
            server,
            reply: Some(verdicts),
        };
        self.targets.put(at, kept);
        true
    }

    /// Whether the server's reply is awaited.
    pub fn awaits(&self, server: ServerId) -> bool
        ensures { result ≡ rule.is_awaited self.now.targets server }
    {
        self.targets
            .iter()
            .any(|target| target.server == server && target.reply.is_none())
    }

    /// Whether a reply is awaited.
    pub fn awaits_any(&self) -> bool
        ensures { result ≡ list_any rule.is_missing self.now.targets }
    {
        is_missing(self.targets.as_slice())
    }

    fn is_waiting(&self, reading: Option<&Reading>) -> bool
        ensures { result ≡ rule.is_waiting self.now (option_copied reading.entry) }
    {
        is_missing(self.targets.as_slice()) || (self.reads && reading.is_none())
    }

    fn aim_in(
        &self,
        alloc: Global,
        reading: Option<&Reading>,
    ) -> Result<List<(AdminId, Version)>, NoMemory>
        ensures { IfOk result (λ made. made ≡ rule.aim_in self.now (option_copied reading.entry)) }
    {
        aim_of(
            alloc,
            self.levels.as_slice(),
            reading,
            self.targets.as_slice(),
        )
    }

    fn has_outdated(&self, aim: &[(AdminId, Version)]) -> bool
        ensures { result ≡ list_any (rule.is_outdated aim.now) self.now.targets }
    {
        any_outdated(aim, self.targets.as_slice())
    }

    fn met_in(&self, reading: Option<&Reading>, aim: &[(AdminId, Version)]) -> Option<Met>
        ensures { result ≡ rule.met_by self.now.levels (option_copied reading.entry)
            (replies.proofs_in self.now.targets) aim.now }
    {
        met_by(
            self.levels.as_slice(),
            reading,
            self.targets.as_slice(),
            aim,
        )
    }

    fn update(
        &mut self,
        alloc: Global,
        aim: List<(AdminId, Version)>,
        mets: List<Met>,
    ) -> Result<Judged, NoMemory>
        ensures answer { IfOk result (λ made.
            made ≡ judged.Update (rule.wants_of aim self.old.targets)) }
        ensures next { OnOk result
            (self.new ≡ rule.next_round self.old aim (rule.wants_of aim self.old.targets) mets) }
        ensures memory { OnErr result (self.new ≡ self.old) }
    {
        let named = named_by(alloc, aim.as_slice(), self.targets.as_slice())?;
        let answer = named.try_clone(alloc)?;
        renew(aim.as_slice(), &mut self.targets);
        self.number = self.number.saturating_add(1);
        self.aim = aim;
        self.named = named;
        self.mets = mets;
        Ok(Judged::Update(answer))
    }

    fn outdated(
        &mut self,
        alloc: Global,
        aim: List<(AdminId, Version)>,
        met: Option<Met>,
    ) -> Result<Judged, NoMemory>
        ensures answer { IfOk result (λ made. made ≡ rule.update_answer self.old aim met) }
        ensures next { OnOk result
            (self.new ≡ rule.after self.old aim met (rule.update_answer self.old aim met)) }
        ensures memory { OnErr result (self.new ≡ self.old) }
    {
        let mets = with_met(alloc, &self.mets, met)?;
        if met.is_some() && mets.len() == self.limit as usize {
            return Ok(Judged::Spent(mets));
        }
        self.update(alloc, aim, mets)
    }

    /// Judges the replies, with the master's reading where the round reads it. After an update the next round has begun, in which
    /// the replies of the named servers are awaited; after another answer, or where memory is refused, the round is as before.
    /// What earlier rounds met is added to the round only by an update, so judging again, after another answer,
    /// answers the same.
    pub fn judge(&mut self, alloc: Global, reading: Option<&Reading>) -> Result<Judged, NoMemory>
        ensures answer { IfOk result (λ made.
            made ≡ rule.judge self.old (option_copied reading.entry)) }
        ensures next { OnOk result
            (self.new ≡ rule.after_judgement self.old (option_copied reading.entry)) }
        ensures memory { OnErr result (self.new ≡ self.old) }
    {
        if self.is_waiting(reading) {
            return Ok(Judged::Waiting);
        }
        let aim = self.aim_in(alloc, reading)?;
        if self.has_outdated(aim.as_slice()) {
            let met = self.met_in(reading, aim.as_slice());
            self.outdated(alloc, aim, met)
        } else {
            agreed(alloc, self.targets.as_slice())
        }
    }

    /// The number of the present round, counted from 1.
    pub fn rounds(&self) -> u32
        ensures { result ≡ self.now.number }
    {
        self.number
    }

    /// The proofs of the kept replies, in order of their queries; those of one query stay in the order of the servers.
    pub fn proofs(&self, alloc: Global) -> Result<List<Verdict>, NoMemory>
        ensures { IfOk result (λ made.
            made ≡ replies.by_query (replies.proofs_in self.now.targets)) }
    {
        proofs_of(alloc, self.targets.as_slice())
    }

    /// The same proofs, taken out of the round, which is used up.
    pub fn take_proofs(&mut self, alloc: Global) -> Result<List<Verdict>, NoMemory>
        ensures { IfOk result (λ made.
            made ≡ replies.by_query (replies.proofs_in self.old.targets)) }
    {
        let targets = mem::replace(&mut self.targets, List::new(alloc));
        proofs_out_of(alloc, targets)
    }
}
