//! A count of steps, which is there for contracts alone.
ghost use Rattle.std.specs.Prelude.{◌≡◌, ◌<◌};

use std::marker::Brand;
use std::mem::size_of_val;
use std::sync::ledger::{Blank, Ledger};
use tp_types::Steps;

fn two_steps<L: Ledger>(blank: Blank) -> Steps<L>
    requires name { blank.name ≡ L.name }
    requires parts { blank.parts ≡ L.parts }
    requires some { 0 < blank.parts }
    ensures { result ≡ 2 }
{
    let mut steps = Steps::none(blank);
    steps.tick();
    steps.tick();
    steps
}

/// How many bytes the count has, once two steps were counted.
fn bytes_after_two_steps<L: Ledger>(blank: Blank) -> usize
    requires name { blank.name ≡ L.name }
    requires parts { blank.parts ≡ L.parts }
    requires some { 0 < blank.parts }
{
    let steps = two_steps::<L>(blank);
    size_of_val(&steps)
}

#[test]
fn steps_are_counted_and_have_no_bytes(rt: HostRuntime) {
    assert_eq!(rt; bytes_after_two_steps::<Brand>(Blank::new(1)), 0);
}
