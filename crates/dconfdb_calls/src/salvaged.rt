//! A sound database of what can be saved of a file.
ghost use Rattle.std.specs.Prelude.{IfErr, IfOk};
ghost use Rattle.dconfdb_calls.specs.Salvaged.{IsSalvageOf, IsUnsalvaged, IsUnwritten, IsWritten};

use crate::fault::Fault;
use crate::opened::fault_of;
use gvdb_write::{Map, SalvageFault, TooBig, WriteFault, salvage, write};
use std::alloc::Global;

/// The bytes of a sound database, and how many values and locks it has.
#[derive(Drop)]
pub struct Salvaged {
    pub file: Vec<u8>,
    pub keys: usize,
    pub locks: usize,
}

/// A sound database of what can be saved of a file, sound or not: what the command `repair` writes.
///
/// It has at each path of a key the lowest value of that name whose pointer is valid, and the locks
/// that the lowest table of locks names which opens. `Short`, `BadSignature`, `BadVersion`,
/// `BadRoot` or `BadTable` if the bytes open as no database; `TooBig` if what is saved would have over
/// 4,294,967,295 bytes; `Memory` if an allocation fails.
pub fn salvaged_file(alloc: Global, file: &[u8]) -> Result<Salvaged, Fault>
    ensures salvaged { IfOk result (λ it. IsSalvageOf file.now it.file.items it.keys it.locks) }
    ensures fault { IfErr result (IsUnsalvaged file.now) }
{
    match salvage(alloc, file) {
        Ok(map) => written(alloc, &map),
        Err(SalvageFault::Fault(fault)) => Err(fault_of(fault)),
        Err(SalvageFault::Memory) => Err(Fault::Memory),
    }
}

/// The database of these settings.
fn written(alloc: Global, map: &Map) -> Result<Salvaged, Fault>
    ensures written { IfOk result (λ it. IsWritten map.now it.file.items it.keys it.locks) }
    ensures fault { IfErr result (IsUnwritten map.now) }
{
    match write(alloc, map) {
        Ok(file) => Ok(Salvaged {
            file,
            keys: map.key_count(),
            locks: map.lock_count(),
        }),
        Err(WriteFault::Fault(TooBig)) => Err(Fault::TooBig),
        Err(WriteFault::Memory) => Err(Fault::Memory),
    }
}
