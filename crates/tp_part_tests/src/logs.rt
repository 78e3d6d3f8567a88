//! Logs on disks in memory.
use crate::log_images::{BROKEN, EMPTY, GIVING, Image};
use crate::made::assert_case;
use crate::record_bytes::KINDS;
use crate::record_kinds::{long, record};
use crate::records::spelled;
use std::process::Abort;
use tp_device::{Disk, DiskError, MemoryDisk};
use tp_log::{Log, LogError};
use tp_types::{List, Record};

/// The bytes of a log of one record.
const ONE_BOOT: [u8; 7] = [1, 0, 0, 0, 1, 1, 0];

fn fresh(rt: &(impl Abort + AllocGlobal)) -> MemoryDisk {
    MemoryDisk::fresh(rt.alloc()).expect(rt, "memory for a disk")
}

/// A disk that holds these bytes, synced.
fn disk_of(rt: &(impl Abort + AllocGlobal), bytes: &[u8]) -> MemoryDisk {
    let mut disk = fresh(rt);
    disk.cut(0).expect(rt, "a cut");
    disk.write_at(0, bytes).expect(rt, "a write");
    disk.sync().expect(rt, "a sync");
    disk
}

/// Whether a disk holds these bytes.
fn holds(rt: &(impl Abort + AllocGlobal), mut disk: MemoryDisk, bytes: &[u8]) -> bool {
    let mut held = vec![in rt.alloc(); 0; bytes.len()].expect(rt, "memory for bytes");
    let count = disk.read(0, &mut held);
    let holds = disk.len() == bytes.len() as u64 && count == Ok(bytes.len());
    drop(disk);
    holds && held.as_slice() == bytes
}

/// The log on a disk, and its records.
fn opened(rt: &(impl Abort + AllocGlobal), disk: MemoryDisk) -> (Log<MemoryDisk>, List<Record>) {
    Log::opened(rt.alloc(), disk).ok().expect(rt, "a log")
}

/// A log on a fresh disk, which gives no records.
fn fresh_log(rt: &(impl Abort + AllocGlobal)) -> Log<MemoryDisk> {
    let (log, none) = opened(rt, fresh(rt));
    assert!(*rt; none.is_empty());
    drop(none);
    log
}

/// How many records the log on this disk has.
fn count_of(rt: &(impl Abort + AllocGlobal), disk: MemoryDisk) -> usize {
    let (log, records) = opened(rt, disk);
    drop(log);
    let count = records.len();
    drop(records);
    count
}

/// Whether an image gives records with these bodies, one after the other.
fn gives(rt: &(impl Abort + AllocGlobal), bytes: &[u8], bodies: &[u8]) -> bool {
    let (log, records) = opened(rt, disk_of(rt, bytes));
    drop(log);
    let mut given = Vec::new(rt.alloc());
    for record in records.as_slice() {
        let body = spelled(rt, record);
        given
            .extend_from_slice(&body)
            .expect(rt, "memory for bodies");
    }
    drop(records);
    given.as_slice() == bodies
}

/// Why no log opens on a disk, or none where one does.
fn refusal(rt: &impl AllocGlobal, disk: MemoryDisk) -> Option<LogError> {
    match Log::opened(rt.alloc(), disk) {
        Ok((log, records)) => {
            drop(records);
            drop(log);
            None
        }
        Err((disk, error)) => {
            drop(disk);
            Some(error)
        }
    }
}

// ---- images

#[test]
fn images_give_what_was_recorded(rt: HostRuntime) {
    for (number, Image { bytes, bodies }) in GIVING.iter().enumerate() {
        assert_case(&rt, number, gives(&rt, bytes, bodies));
    }
}

#[test]
fn images_without_a_record_give_nothing(rt: HostRuntime) {
    for (number, bytes) in EMPTY.iter().enumerate() {
        assert_case(&rt, number, gives(&rt, bytes, &[]));
    }
}

/// Whether an image is no log from this place on.
fn fails_at(rt: &(impl Abort + AllocGlobal), bytes: &[u8], place: u64) -> bool {
    refusal(rt, disk_of(rt, bytes)) == Some(LogError::NotALog { place })
}

#[test]
fn images_that_are_no_log_are_refused(rt: HostRuntime) {
    for (number, (bytes, place)) in BROKEN.iter().enumerate() {
        assert_case(&rt, number, fails_at(&rt, bytes, *place));
    }
}

/// Why no log opens on a disk, and whether the disk that is given back holds these bytes.
fn given_back(
    rt: &(impl Abort + AllocGlobal),
    disk: MemoryDisk,
    bytes: &[u8],
) -> Option<(LogError, bool)> {
    match Log::opened(rt.alloc(), disk) {
        Ok((log, records)) => {
            drop(records);
            drop(log);
            None
        }
        Err((disk, error)) => Some((error, holds(rt, disk, bytes))),
    }
}

#[test]
fn an_image_that_is_no_log_is_given_back(rt: HostRuntime) {
    for (number, (bytes, place)) in BROKEN.iter().enumerate() {
        let wanted = Some((LogError::NotALog { place: *place }, true));
        assert_case(
            &rt,
            number,
            given_back(&rt, disk_of(&rt, bytes), bytes) == wanted,
        );
    }
}

// ---- appends

#[test]
fn a_log_has_the_bytes_of_the_format(rt: HostRuntime) {
    let mut log = fresh_log(&rt);
    assert!(rt; log.append(rt.alloc(), &Record::Boot).is_ok());
    assert!(rt; holds(&rt, log.into_disk(), &ONE_BOOT));
    assert!(rt; gives(&rt, &ONE_BOOT, &[0, 0, 0, 1, 1]));
}

/// How many records are found on the disk after a crash that let so many calls of an append to a log of one record pass.
fn found_after(rt: &(impl Abort + AllocGlobal), number: usize, calls: u32, fill: u8) -> usize {
    let (mut log, records) = opened(rt, disk_of(rt, &ONE_BOOT));
    drop(records);
    let record = record(rt, number);
    let crashed = log.crash_in_append(rt.alloc(), &record, calls, fill);
    drop(record);
    let count = count_of(rt, log.into_disk());
    assert!(*rt; crashed.is_ok());
    count
}

#[test]
fn a_crash_keeps_a_record_whose_gate_is_open(rt: HostRuntime) {
    for number in 0..KINDS.len() {
        for fill in [0, 1, 90] {
            for calls in 0..6 {
                let is_kept = calls >= 4 || calls == 3 && fill == 1;
                let wanted = if is_kept { 2 } else { 1 };
                assert_case(&rt, number, found_after(&rt, number, calls, fill) == wanted);
            }
        }
    }
}

// ---- refused calls

/// Whether an append is refused where its disk takes so many calls, and the log then takes none.
fn closes(rt: &(impl Abort + AllocGlobal), calls: u32) -> bool {
    let mut log = fresh_log(rt);
    log.stop_after(calls);
    let first = log.append(rt.alloc(), &Record::Boot);
    log.stop_after(4);
    let second = log.append(rt.alloc(), &Record::Boot);
    drop(log);
    first == Err(LogError::Device) && second == Err(LogError::Closed)
}

#[test]
fn each_refused_call_is_answered(rt: HostRuntime) {
    for calls in 0..4 {
        let mut disk = fresh(&rt);
        disk.stop_after(calls);
        let is_refused = refusal(&rt, disk) == Some(LogError::Device);
        assert_case(&rt, calls as usize, is_refused && closes(&rt, calls));
    }
}

#[test]
fn a_stopped_disk_refuses_each_call(rt: HostRuntime) {
    let mut disk = fresh(&rt);
    disk.stop_after(0);
    let failed = disk.sync() == Err(DiskError::Failed)
        && disk.cut(0) == Err(DiskError::Failed)
        && disk.write_at(0, &[7]) == Err(DiskError::Failed)
        && disk.read(0, &mut [0]) == Err(DiskError::Failed);
    assert!(rt; failed);
    assert!(rt; holds(&rt, disk.crashed(9), &[0]));
}

// ---- in place

#[test]
fn a_disk_crashes_in_place(rt: HostRuntime) {
    let mut disk = disk_of(&rt, &[7, 6]);
    let written = disk.write_at(0, &[8]).is_ok();
    disk.stop_after(0);
    disk.crash(rt.alloc(), 9);
    let runs = disk.sync().is_ok();
    let left: &[u8] = &[9, 6];
    let is_left = disk.content() == left;
    disk.stop_after(0);
    disk.run_on();
    let runs_on = disk.sync().is_ok();
    drop(disk);
    assert!(rt; written && runs && is_left && runs_on);
}

/// How many records a log of one record has after a crash in place that let so many calls of an append pass. It is read
/// again, and then takes a record.
fn found_in_place(rt: &(impl Abort + AllocGlobal), number: usize, calls: u32, fill: u8) -> usize {
    let (mut log, records) = opened(rt, disk_of(rt, &ONE_BOOT));
    drop(records);
    let record = record(rt, number);
    let crashed = log.crash_in_append(rt.alloc(), &record, calls, fill);
    drop(record);
    let reread = log.reread(rt.alloc()).expect(rt, "records");
    let count = reread.len();
    drop(reread);
    let appended = log.append(rt.alloc(), &Record::Boot);
    drop(log);
    assert!(*rt; crashed.is_ok() && appended.is_ok());
    count
}

#[test]
fn a_crash_in_place_keeps_a_record_whose_gate_is_open(rt: HostRuntime) {
    for number in 0..KINDS.len() {
        for calls in 0..6 {
            let wanted = if calls >= 4 { 2 } else { 1 };
            assert_case(
                &rt,
                number,
                found_in_place(&rt, number, calls, 90) == wanted,
            );
        }
    }
    assert!(rt; found_in_place(&rt, 0, 3, 1) == 2);
}

#[test]
fn a_fresh_log_takes_records(rt: HostRuntime) {
    let mut log = Log::fresh(rt.alloc()).expect(&rt, "memory for a log");
    let appended = log.append_running(rt.alloc(), &Record::Boot);
    let is_one_boot = holds(&rt, log.into_disk(), &ONE_BOOT);
    assert!(rt; appended.is_ok() && is_one_boot);
}

#[test]
fn a_log_is_read_in_place(rt: HostRuntime) {
    let mut log = fresh_log(&rt);
    let appended = log.append(rt.alloc(), &Record::Boot);
    log.crash(rt.alloc());
    let closed = log.append(rt.alloc(), &Record::Boot);
    log.run_on();
    let reread = log.reread(rt.alloc()).expect(&rt, "records");
    let records = log.records(rt.alloc()).expect(&rt, "records");
    let counts = [reread.len(), records.len()];
    drop(reread);
    drop(records);
    drop(log);
    assert!(rt; appended.is_ok() && closed == Err(LogError::Closed) && counts == [1, 1]);
}

#[test]
fn a_refused_crash_leaves_a_log_open(rt: HostRuntime) {
    let mut log = fresh_log(&rt);
    let record = long(&rt, 0, 262_134);
    let refused = log.crash_in_append(rt.alloc(), &record, 2, 90);
    drop(record);
    let appended = log.append(rt.alloc(), &Record::Boot);
    let is_one_boot = log.disk().content() == &ONE_BOOT[..];
    drop(log);
    assert!(rt; refused == Err(LogError::TooLong) && appended.is_ok() && is_one_boot);
}

// ---- sizes

/// Appends a vote with so many deeds and versions.
fn long_appended(
    rt: &(impl Abort + AllocGlobal),
    log: &mut Log<MemoryDisk>,
    deeds: usize,
    versions: usize,
) -> Result<(), LogError> {
    let record = long(rt, deeds, versions);
    let appended = log.append(rt.alloc(), &record);
    drop(record);
    appended
}

#[test]
fn a_body_of_one_mebibyte_fits(rt: HostRuntime) {
    let mut log = fresh_log(&rt);
    let longer = long_appended(&rt, &mut log, 0, 262_134);
    let longest = long_appended(&rt, &mut log, 3, 262_115);
    let length = log.disk().len();
    drop(log);
    assert!(rt; longer == Err(LogError::TooLong));
    assert!(rt; longest.is_ok());
    assert!(rt; length == 1_048_578);
}

#[test]
fn a_hundred_thousand_appends_are_found_again(rt: HostRuntime) {
    let mut log = fresh_log(&rt);
    for number in 0..100_000 {
        assert_case(&rt, number, log.append(rt.alloc(), &Record::Boot).is_ok());
    }
    assert!(rt; count_of(&rt, log.into_disk().crashed(90)) == 100_000);
}
