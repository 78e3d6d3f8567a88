//! Two passes in one thread.
ghost use Rattle.std.specs.Prelude.{◌≡◌, ◌≤◌, [], ◌∷◌, IfOk, IfSome};
ghost use Rattle.tp_types.specs.Each.{Each};
ghost use Rattle.tp_wire.specs.Passes.{Known, Opened};

use crate::plan::{Anything, Plan, TestWire};
use std::alloc::Global;
use std::marker::Brand;
use std::sync::Wait;
use std::test::Fail;
use tp_types::{List, NoMemory, Step};
use tp_wire::{Book, Lookup, Opening, Pass, Site, Wire};

/// Both members of a list of two.
fn both(passes: List<Pass>) -> Option<(Pass, Pass)>
    ensures { IfSome result (λ two. passes ≡ two.0 ∷ two.1 ∷ []) }
{
    let mut passes = passes;
    let second = passes.pop()?;
    let first = passes.pop()?;
    if passes.is_empty() {
        Some((first, second))
    } else {
        None
    }
}

/// What the calls answered: two places, a look, how many mails there are, whether a mail was taken, and the steps.
#[derive(Drop)]
struct Answered {
    first: u64,
    second: u64,
    looked: u64,
    mails: Option<u64>,
    taken: bool,
    book: Book,
}

fn mails_of(found: Lookup) -> Option<u64> {
    match found {
        Lookup::Found(_) => None,
        Lookup::Missing { mails } => Some(mails),
    }
}

fn two_posts_on<B: Site<Plan>, R: Wait>(
    rt: &R,
    alloc: Global,
    opening: Opening<Plan, Anything>,
) -> Result<Answered, NoMemory>
    requires site { opening.table ≡ B.table }
    requires about { opening.about ≡ B.about }
    requires passes { (2 ≡ B.about.passes) × (2 ≡ B.about.actors) }
{
    let (wire, passes): (TestWire<B>, List<Pass>) = Wire::opened(opening, alloc, 2)?;
    let Some((mut one, mut two)) = both(passes) else {
        return Err(NoMemory);
    };
    let none = List::new(alloc);
    let Ok(first) = wire.post(rt, &mut one, Step::Tick { by: 3 }, List::new(alloc), none) else {
        return Err(NoMemory);
    };
    let none = List::new(alloc);
    let Ok(second) = wire.post(rt, &mut two, Step::Tick { by: 4 }, List::new(alloc), none) else {
        return Err(NoMemory);
    };
    let looked = wire.look(&mut one);
    let Ok(found) = wire.mail(rt, alloc, &mut one, 0) else {
        return Err(NoMemory);
    };
    let Ok(taken) = wire.take(rt, &mut one) else {
        return Err(NoMemory);
    };
    let mut passes = List::of_one(alloc, one)?;
    passes.push(two)?;
    let book = wire.close(passes)?;
    Ok(Answered {
        first,
        second,
        looked,
        mails: mails_of(found),
        taken: taken.is_some(),
        book,
    })
}

fn two_posts<R: Wait>(rt: &R, alloc: Global) -> Result<Answered, NoMemory> {
    let plan = Plan {
        passes: 2,
        actors: 2,
    };
    let opening = Opening::new(alloc, &plan)?;
    two_posts_on::<Brand, R>(rt, alloc, opening)
}

fn is_tick(book: &Book, at: usize, wanted: u64) -> bool {
    match book.steps.get(at) {
        Some(Step::Tick { by }) => *by == wanted,
        _ => false,
    }
}

#[test]
fn two_posts_by_two_passes(rt: HostRuntime) -> Result<(), Fail> {
    let it = two_posts(&rt, rt.alloc()).expect(&rt, "memory");
    assert!(rt; it.first == 0 && it.second == 1 && it.looked == 2);
    assert!(rt; it.mails == Some(0) && !it.taken);
    assert!(rt; it.book.steps.len() == 2 && is_tick(&it.book, 0, 3) && is_tick(&it.book, 1, 4));
    Ok(())
}
