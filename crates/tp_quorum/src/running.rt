//! Which operation runs, and which replica is down.
ghost use Rattle.std.specs.Prelude.{◌≡◌, ◌<◌, ◌^◌, length};
ghost use Rattle.tp_quorum.specs.Machine as machine;
ghost use Rattle.tp_quorum.specs.Operations as rows;

use crate::operation::is_running;
use crate::replica::Replica;
use crate::types::Operation;
use tp_types::AdminId;

fn is_by_publisher(operation: &Operation, admin: AdminId) -> bool
    ensures { result ≡ machine.is_by_publisher admin operation.now }
{
    is_running(operation) && operation.reader.is_none() && operation.admin.0 == admin.0
}

fn is_reader(reader: u32, of: Option<u32>) -> bool
    ensures { result ≡ machine.is_reader reader of }
{
    match of {
        None => false,
        Some(other) => other == reader,
    }
}

fn is_by_reader(operation: &Operation, reader: u32) -> bool
    ensures { result ≡ machine.is_by_reader reader operation.now }
{
    is_running(operation) && is_reader(reader, operation.reader)
}

/// The operation that a publisher has and that has not ended.
pub(crate) fn publication_of(ops: &[Operation], admin: AdminId) -> Option<u32>
    requires { length ops.now < 2 ^ 32 }
    ensures { result ≡ machine.first_where (machine.is_by_publisher admin) 0 ops.now }
{
    let mut number = 0;
    for operation in ops {
        if is_by_publisher(operation, admin) {
            return Some(number);
        }
        number += 1;
    }
    None
}

/// The same of a reader.
pub(crate) fn reading_of(ops: &[Operation], reader: u32) -> Option<u32>
    requires { length ops.now < 2 ^ 32 }
    ensures { result ≡ machine.first_where (machine.is_by_reader reader) 0 ops.now }
{
    let mut number = 0;
    for operation in ops {
        if is_by_reader(operation, reader) {
            return Some(number);
        }
        number += 1;
    }
    None
}

/// The first operation that has not ended.
pub(crate) fn first_running(ops: &[Operation]) -> Option<u32>
    requires { length ops.now < 2 ^ 32 }
    ensures { result ≡ machine.first_where rows.is_running 0 ops.now }
{
    let mut number = 0;
    for operation in ops {
        if is_running(operation) {
            return Some(number);
        }
        number += 1;
    }
    None
}

/// The lowest replica that is down.
pub(crate) fn lowest_down(replicas: &[Replica]) -> Option<u32>
    requires { length replicas.now < 2 ^ 32 }
    ensures { result ≡ machine.first_where machine.is_replica_down 0 replicas.now }
{
    let mut number = 0;
    for replica in replicas {
        if replica.is_down() {
            return Some(number);
        }
        number += 1;
    }
    None
}
