//! Faults whose names no run of a command prints.
use dconf_cli::{FailedRead, InputFault};
use dconf_compile::{CompileCause, LineStop};
use dconf_disk::LockFault;
use std::alloc::Global;
use std::io::{Error, ErrorKind};
use std::test::Fail;

/// What is printed of the faults of an input, of a lock and of a line.
fn printed(alloc: Global) -> Result<String, Fail> {
    let lock = LockFault::from(Error::from(ErrorKind::Other));
    let line = LineStop {
        line: 2,
        cause: CompileCause::TooBig,
    };
    let inputs = format!(in alloc; "{}, {}", InputFault::Fault(FailedRead), InputFault::Memory)?;
    let locks = format!(in alloc; "{}, {lock}, {}", LockFault::Busy, LockFault::Memory)?;
    Ok(format!(in alloc; "{inputs}; {locks}; {line}")?)
}

#[test]
fn each_is_printed_by_its_name(rt: HostRuntime) -> Result<(), Fail> {
    let said = printed(rt.alloc())?;
    assert!(rt;
        said.as_str() == "Device input, Memory; Busy, Device, Memory; TooBig",
        "{said}"
    );
    Ok(())
}
