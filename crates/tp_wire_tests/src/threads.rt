//! Two, four and eight threads at one wire.
ghost use Rattle.std.specs.Prelude.{◌≡◌, IfOk, OnOk, IfSome};
ghost use Rattle.tp_types.specs.Each.{Each};
ghost use Rattle.tp_wire.specs.Passes.{Known, Opened};
ghost use Rattle.tp_wire_tests.specs.Ready.{IsReady};

use crate::plan::{Anything, Plan, TestWire};
use crate::worker::{Answers, TURNS, Worker};
use std::alloc::Global;
use std::marker::Brand;
use std::sync::Wait;
use std::test::Fail;
use std::thread;
use std::thread::Threads;
use tp_types::{List, NoMemory, Step};
use tp_wire::{Book, Opening, Pass, Site, Wire};

/// A worker for each pass.
fn workers<B: Site<Plan>>(alloc: Global, passes: List<Pass>) -> Result<Vec<Worker<B>>, NoMemory>
    requires { Each (IsReady B.table B.about.actors) passes }
{
    let mut made = Vec::new(alloc);
    let mut number = 0u64;
    for pass in passes.into_vec() {
        made.push(Worker::new(alloc, number, pass))?;
        number = number.wrapping_add(1);
    }
    Ok(made)
}

/// Adds a pass, if it is left.
#[tactic(auto, using(crate::proofs::ReadyLemmas::one_more))]
fn keep<B: Site<Plan>>(passes: &mut List<Pass>, pass: Option<Pass>) -> Result<(), NoMemory>
    requires passes { Each (λ (p : Known). p.table ≡ B.table) passes.old }
    requires pass { IfSome pass (λ p. IsReady B.table B.about.actors p) }
    ensures { OnOk result (Each (λ (p : Known). p.table ≡ B.table) passes.new) }
{
    let Some(pass) = pass else {
        return Ok(());
    };
    passes.push(pass)?;
    Ok(())
}

/// What the threads were answered, and the passes that are left.
fn parted<B: Site<Plan>>(
    alloc: Global,
    workers: Vec<Worker<B>>,
) -> Result<(List<Pass>, Vec<Answers>), NoMemory>
    ensures { IfOk result (λ made. Each (λ (p : Known). p.table ≡ B.table) made.0) }
{
    let mut passes = List::new(alloc);
    let mut all = Vec::new(alloc);
    for worker in workers {
        let (pass, answers) = worker.parts();
        keep::<B>(&mut passes, pass)?;
        all.push(answers)?;
    }
    Ok((passes, all))
}

/// Runs a thread for each pass, and answers the closed book and what each was answered.
fn run_on<B: Site<Plan> + Send + Sync, R: Threads + Wait + Sync>(
    rt: &R,
    alloc: Global,
    opening: Opening<Plan, Anything>,
    passes: u32,
) -> Result<(Book, Vec<Answers>), NoMemory>
    requires site { opening.table ≡ B.table }
    requires about { opening.about ≡ B.about }
    requires passes { (passes ≡ B.about.passes) × (passes ≡ B.about.actors) }
{
    let (wire, dealt): (TestWire<B>, List<Pass>) = Wire::opened(opening, alloc, passes)?;
    let mut workers = workers::<B>(alloc, dealt)?;
    let count = workers.len().max(1);
    let shared = &wire;
    thread::for_each_mut(
        rt,
        workers.as_mut_slice(),
        count,
        &|_, worker: &mut Worker<B>| { worker.run(rt, alloc, shared) },
    );
    let (left, all) = parted(alloc, workers)?;
    let book = wire.close(left)?;
    Ok((book, all))
}

/// So many threads, each of which is an actor.
fn run<R: Threads + Wait + Sync>(
    rt: &R,
    alloc: Global,
    threads: u32,
) -> Result<(Book, Vec<Answers>), NoMemory> {
    let plan = Plan {
        passes: threads,
        actors: threads,
    };
    let opening = Opening::new(alloc, &plan)?;
    run_on::<Brand, R>(rt, alloc, opening, threads)
}

/// Whether the book has at each place that a thread was answered the step that it posted.
fn has_steps(book: &Book, number: usize, answers: &Answers) -> bool {
    let first = (number as u64).wrapping_mul(TURNS);
    for (turn, place) in answers.places.iter().enumerate() {
        match book.steps.get(*place as usize) {
            Some(Step::Tick { by }) if *by == first.wrapping_add(turn as u64) => {}
            _ => return false,
        }
    }
    true
}

/// Marks the mails that a thread took. Answers whether none was marked.
fn marks(taken: &mut Vec<bool>, answers: &Answers) -> bool {
    for mail in answers.mails.as_slice() {
        let at = *mail as usize;
        if at >= taken.len() || taken[at] {
            return false;
        }
        taken[at] = true;
    }
    true
}

/// Whether all that the threads were answered is right.
fn is_right(
    alloc: Global,
    book: &Book,
    all: &Vec<Answers>,
    threads: u64,
) -> Result<bool, NoMemory> {
    let wanted = threads.wrapping_mul(TURNS);
    let mut taken = Vec::from_elem(alloc, false, book.mails.len())?;
    let mut right = book.steps.len() as u64 == wanted && book.mails.len() as u64 == wanted;
    for (number, answers) in all.iter().enumerate() {
        right = right
            && answers.rising
            && answers.places.len() as u64 == TURNS
            && has_steps(book, number, answers)
            && marks(&mut taken, answers);
    }
    Ok(right && taken.iter().all(|mark| *mark))
}

fn right_with<R: Threads + Wait + Sync>(
    rt: &R,
    alloc: Global,
    threads: u32,
) -> Result<bool, NoMemory> {
    let (book, all) = run(rt, alloc, threads)?;
    let right = is_right(alloc, &book, &all, u64::from(threads))?;
    Ok(right && all.len() as u64 == u64::from(threads))
}

#[test]
fn two_threads(rt: HostRuntime) -> Result<(), Fail> {
    assert!(rt; right_with(&rt, rt.alloc(), 2).expect(&rt, "memory"));
    Ok(())
}

#[test]
fn four_threads(rt: HostRuntime) -> Result<(), Fail> {
    assert!(rt; right_with(&rt, rt.alloc(), 4).expect(&rt, "memory"));
    Ok(())
}

#[test]
fn eight_threads(rt: HostRuntime) -> Result<(), Fail> {
    assert!(rt; right_with(&rt, rt.alloc(), 8).expect(&rt, "memory"));
    Ok(())
}
