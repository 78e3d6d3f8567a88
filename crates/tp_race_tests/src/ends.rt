//! What a race writes, and how it ends.
use crate::scenarios::{FIRST, LISTED, raced_freely};
use tp_race::Status;

/// What a race of the first scenario prints, in which nobody has a script: all comes by itself.
pub const PRINTED: &str = "race 1
step submit t1
step deliver 0
step deliver 1
step deliver 2
step deliver 3
step deliver 4
step deliver 5
step deliver 6
step deliver 7
tpvc 1
0 submit t1
6 commit t1 rounds 1
  instance 1 reading none
  proof q1 s0 hr 1 at 3 rule 1 uses none
  write q1 x 7
7 settle s0 t1 commit
item s0 x 7
quiet 9 8
";

#[test]
fn first_scenario(rt: HostRuntime) {
    let ended = raced_freely(&rt, &[], FIRST);
    assert!(rt; ended.status == Status::Done);
    assert!(rt; ended.out.bytes() == PRINTED.as_bytes());
    assert!(rt; ended.notes.bytes() == b"".as_slice());
}

#[test]
fn any_word_is_usage(rt: HostRuntime) {
    for word in ["run", "", "--help"] {
        let ended = raced_freely(&rt, &[word], FIRST);
        assert!(rt; ended.status == Status::Usage);
        assert!(rt; ended.out.bytes() == b"".as_slice());
        assert!(rt; ended.notes.bytes() == b"usage: tpvc_race\n".as_slice());
    }
}

#[test]
fn listed_steps_are_refused(rt: HostRuntime) {
    let ended = raced_freely(&rt, &[], LISTED);
    assert!(rt; ended.status == Status::Refused);
    assert!(rt; ended.out.bytes() == b"".as_slice());
    assert!(rt; ended.notes.bytes() == b"refused range $.steps\n".as_slice());
}
