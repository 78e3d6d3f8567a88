//! Lists, names, numbers, and two answers together.
use crate::made::assert_case;
use std::process::Abort;
use tp_types::{List, Name, NoMemory, Spare, TryClone, both, is_name, number_of};

/// 7, 8 and 9.
fn three(rt: &(impl Abort + AllocGlobal)) -> List<i128> {
    let mut made = List::of_one(rt.alloc(), 7).expect(rt, "memory for a list");
    made.push(8).expect(rt, "memory for a member");
    made.push(9).expect(rt, "memory for a member");
    made
}

/// Whether a list has these members.
fn has(list: &List<i128>, members: &[i128]) -> bool {
    list.len() == members.len()
        && list.is_empty() == members.is_empty()
        && list.as_slice() == members
        && list.get(1) == members.get(1)
}

/// Puts 5 in the second place, 6 in one that is not there, and 4 in the third.
fn put(list: &mut List<i128>) {
    list.put(1, 5);
    list.put(3, 6);
    if let Some(last) = list.get_mut(2) {
        *last = 4;
    }
}

#[test]
fn lists_hold_their_members(rt: HostRuntime) {
    let mut made = three(&rt);
    let copy = made.try_clone(rt.alloc()).expect(&rt, "memory for a copy");
    let equals = copy == made && has(&copy, &[7, 8, 9]);
    put(&mut made);
    let is_put = has(&made, &[7, 5, 4]) && copy != made;
    let last = made.pop();
    made.truncate(1);
    let is_cut = last == Some(4) && has(&made, &[7]);
    let members = made.into_vec();
    assert!(rt; equals && is_put && is_cut && members.len() == 1);
    assert!(rt; has(&List::new(rt.alloc()), &[]));
}

/// A list of one member, whose memory is kept.
fn is_made(rt: &(impl Abort + AllocGlobal), spare: &mut Spare<i128>, member: i128) -> bool {
    let made = spare.list_of(member).expect(rt, "memory for a list");
    let holds = has(&made, &[member]);
    spare.keep(made);
    holds
}

#[test]
fn lists_follow_one_another_in_spare_memory(rt: HostRuntime) {
    let mut spare = Spare::new(rt.alloc());
    let first = is_made(&rt, &mut spare, 7);
    let second = is_made(&rt, &mut spare, 8);
    spare.keep(three(&rt));
    let third = is_made(&rt, &mut spare, 9);
    let room = spare.room(5).expect(&rt, "memory for five");
    assert!(rt; first && second && third);
    assert!(rt; room.is_empty() && room.capacity() >= 5);
}

#[test]
fn two_answers_are_taken_together(rt: HostRuntime) {
    let none: Result<u32, NoMemory> = Err(NoMemory);
    let one: Result<u32, NoMemory> = Ok(1);
    let two: Result<u32, NoMemory> = Ok(2);
    assert!(rt; both(one, two) == Ok((1, 2)));
    assert!(rt; both(none, two) == Err(NoMemory));
    assert!(rt; both(one, none) == Err(NoMemory));
}

const NAMES: &[&str] = &[
    "x",
    "x_1",
    "z",
    "a0",
    "a_",
    "true",
    "abcdefghijklmnopqrstuvwxyz_01234",
];

const OTHERS: &[&[u8]] = &[
    b"",
    b"1x",
    b"_x",
    b"X",
    b"xY",
    b"x y",
    b"x ",
    b" x",
    b"x.y",
    b"x-y",
    b"x*",
    b"x\n",
    b"x\0",
    b"x\xe4",
    b"`",
    b"{",
    b"a/",
    b"a:",
    b"abcdefghijklmnopqrstuvwxyz_012345",
];

/// Whether bytes are a name, which then has these bytes.
fn is_itself(bytes: &[u8]) -> bool {
    match Name::of(bytes) {
        None => false,
        Some(name) => name.bytes() == bytes,
    }
}

#[test]
fn spells_names(rt: HostRuntime) {
    for (at, text) in NAMES.iter().enumerate() {
        let bytes = text.as_bytes();
        assert_case(&rt, at, is_name(bytes) && is_itself(bytes));
    }
    for (at, bytes) in OTHERS.iter().enumerate() {
        assert_case(&rt, at, !is_name(bytes) && !is_itself(bytes));
    }
}

const NUMBERS: &[(&[u8], Option<u64>)] = &[
    (b"0", Some(0)),
    (b"7", Some(7)),
    (b"10", Some(10)),
    (b"123456789012345", Some(123_456_789_012_345)),
    (b"999999999999999", Some(999_999_999_999_999)),
    (b"1000000000000000", None),
    (b"", None),
    (b"00", None),
    (b"07", None),
    (b"-1", None),
    (b"+1", None),
    (b"1 ", None),
    (b"1a", None),
];

#[test]
fn spells_numbers(rt: HostRuntime) {
    for (at, (bytes, number)) in NUMBERS.iter().enumerate() {
        assert_case(&rt, at, number_of(bytes) == *number);
    }
}
