//! The choice among traps.

use std::test::Fail;
use sv8_trap::{Trap, select};

#[test]
fn the_lowest_priority_number_is_taken(rt: HostRuntime) -> Result<(), Fail> {
    let raised = [
        Trap::DataAccessException,
        Trap::IllegalInstruction,
        Trap::MemAddressNotAligned,
        Trap::PrivilegedInstruction,
    ];
    assert!(rt; matches!(select(&raised), Trap::PrivilegedInstruction));
    Ok(())
}
