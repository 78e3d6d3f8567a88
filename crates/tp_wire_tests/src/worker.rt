//! What one thread does, and what it keeps of it.
ghost use Rattle.std.specs.Prelude.{OnOk, IfOk, IfSome};
ghost use Rattle.tp_wire_tests.specs.Ready.{IsReady};

use crate::plan::{Plan, TestWire, look, post, take};
use std::alloc::Global;
use std::marker::{Model, PhantomData};
use std::sync::Wait;
use tp_types::{NoMemory, Place};
use tp_wire::{Pass, Site};

/// How many steps each thread posts, and how often it takes.
pub const TURNS: u64 = 100_000;

/// What a thread was answered.
#[derive(Drop)]
pub struct Answers {
    pub places: Vec<Place>,
    pub mails: Vec<u64>,
    /// Whether each place was above the one before, and each look above the place and no less than the one before.
    pub rising: bool,
    pub last_look: u64,
}

/// A thread's pass, which is gone where it was given up, and its answers.
#[derive(Drop)]
pub struct Worker<B: Site<Plan>> {
    pub number: u64,
    pub pass: Option<Pass>,
    pub answers: Answers,
    site: PhantomData<B>,
}

impl<B: Site<Plan>> Model for Worker<B> {
    ghost use Rattle.std.specs.Prelude.{ℕ, IfSome};
    ghost use Rattle.tp_wire_tests.specs.Ready.{IsReady};

    ghost Value = { ℕ };

    ghost view = { λ w. w.number };

    ghost invariant = { λ w. IfSome w.pass (λ p. IsReady B.table B.about.actors p) };
}

impl<B: Site<Plan>> Worker<B> {
    pub fn new(alloc: Global, number: u64, pass: Pass) -> Worker<B>
        requires { IsReady B.table B.about.actors pass }
    {
        Worker {
            number,
            pass: Some(pass),
            answers: Answers {
                places: Vec::new(alloc),
                mails: Vec::new(alloc),
                rising: true,
                last_look: 0,
            },
            site: PhantomData,
        }
    }

    /// Posts and takes so many times. Without memory it gives its pass up.
    pub fn run<R: Wait>(&mut self, rt: &R, alloc: Global, wire: &TestWire<B>) {
        let Some(pass) = self.pass.take() else {
            return;
        };
        let first = self.number.wrapping_mul(TURNS);
        if let Ok(pass) = turns(rt, alloc, wire, pass, first, &mut self.answers) {
            self.pass = Some(pass);
        }
    }

    /// The pass, and what was answered.
    pub fn parts(self) -> (Option<Pass>, Answers)
        ensures { IfSome result.0 (λ p. IsReady B.table B.about.actors p) }
    {
        let Worker {
            number: _,
            pass,
            answers,
            site: _,
        } = self;
        (pass, answers)
    }
}

/// All turns of one thread.
fn turns<B: Site<Plan>, R: Wait>(
    rt: &R,
    alloc: Global,
    wire: &TestWire<B>,
    mut pass: Pass,
    first: u64,
    answers: &mut Answers,
) -> Result<Pass, NoMemory>
    requires { IsReady B.table B.about.actors pass }
    ensures { IfOk result (λ p. IsReady B.table B.about.actors p) }
{
    for turn in 0..TURNS {
        one_turn(
            rt,
            alloc,
            wire,
            &mut pass,
            first.wrapping_add(turn),
            answers,
        )?;
    }
    Ok(pass)
}

/// A post, a look and a take.
fn one_turn<B: Site<Plan>, R: Wait>(
    rt: &R,
    alloc: Global,
    wire: &TestWire<B>,
    pass: &mut Pass,
    by: u64,
    answers: &mut Answers,
) -> Result<(), NoMemory>
    requires { IsReady B.table B.about.actors pass.old }
    ensures { OnOk result (IsReady B.table B.about.actors pass.new) }
{
    let place = post(rt, alloc, wire, pass, by)?;
    let looked = look(wire, pass);
    let risen = match answers.places.last() {
        Some(before) => *before < place,
        None => true,
    };
    if !risen || looked <= place || looked < answers.last_look {
        answers.rising = false;
    }
    answers.last_look = looked;
    answers.places.push(place)?;
    if let Some(mail) = take(rt, wire, pass)? {
        answers.mails.push(mail)?;
    }
    Ok(())
}
