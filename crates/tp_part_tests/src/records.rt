//! The bytes of records.
use crate::made::assert_case;
use crate::record_bytes::{KINDS, OTHERS};
use crate::record_kinds::record;
use std::process::Abort;
use tp_record::{decode, encode};
use tp_types::{Record, TryClone};

pub fn spelled(rt: &(impl Abort + AllocGlobal), record: &Record) -> Vec<u8> {
    let text = encode(rt.alloc(), record).expect(rt, "memory for a body");
    text.0.into_vec()
}

/// The bytes of the record with which these begin, and the length that is told of it.
fn found(rt: &(impl Abort + AllocGlobal), bytes: &[u8]) -> Option<(Vec<u8>, usize)> {
    match decode(rt.alloc(), bytes).expect(rt, "memory for a record") {
        None => None,
        Some((record, len)) => {
            let bytes = spelled(rt, &record);
            drop(record);
            Some((bytes, len))
        }
    }
}

/// Whether these bytes and one more are found as a record of just these.
fn is_found(rt: &(impl Abort + AllocGlobal), bytes: &[u8]) -> bool {
    let mut longer = bytes.to_vec(rt.alloc()).expect(rt, "memory for bytes");
    longer.push(255).expect(rt, "memory for a byte");
    match found(rt, &longer) {
        None => false,
        Some((again, len)) => again.as_slice() == bytes && len == bytes.len(),
    }
}

/// Whether a record and its copy are spelled so.
fn are_spelled(rt: &(impl Abort + AllocGlobal), record: Record, bytes: &[u8]) -> bool {
    let copy = record.try_clone(rt.alloc());
    let copy = copy.expect(rt, "memory for a copy");
    let are = spelled(rt, &record).as_slice() == bytes && spelled(rt, &copy).as_slice() == bytes;
    drop(copy);
    drop(record);
    are
}

#[test]
fn each_kind_has_the_bytes_of_the_format(rt: HostRuntime) {
    for (number, bytes) in KINDS.iter().enumerate() {
        let are_spelled = are_spelled(&rt, record(&rt, number), bytes);
        assert_case(&rt, number, are_spelled && is_found(&rt, bytes));
    }
}

#[test]
fn other_bytes_are_no_record(rt: HostRuntime) {
    for (number, bytes) in OTHERS.iter().enumerate() {
        assert_case(&rt, number, found(&rt, bytes).is_none());
    }
}
