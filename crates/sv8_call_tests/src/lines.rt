//! That lines are read at all, and a refused one is not taken for want of memory: what each is read as, the contracts
//! say.

use std::alloc::Global;
use std::test::*;
use sv8_model::Refused;
use sv8_statements::LineFault;
use sv8_syntax::parse_line;

fn fault(alloc: Global, text: &[u8]) -> Option<Refused<LineFault>> {
    match parse_line(alloc, text) {
        Ok(_) => None,
        Err(fault) => Some(fault),
    }
}

fn each_has(alloc: Global, texts: &[&[u8]], wanted: Option<Refused<LineFault>>) -> bool {
    for text in texts {
        if fault(alloc, text) != wanted {
            return false;
        }
    }
    true
}

#[test]
fn lines_are_read(rt: HostRuntime) {
    let texts: [&[u8]; 12] = [
        b"",
        b" \t ! \" unfinished",
        b"a.b_$9 : ! a label",
        b"9: add %g1, x+4, %g2",
        b"st %g1, [%lo(y - 0xa) + %sp]",
        b"swapa [%i7]255, %l3",
        b"sethi %hi(1b), %g1",
        b"rd %y, %g1",
        b"ble,a 1f",
        b".byte 1, -1, a, a+1, a-1",
        b".ascii \"\\0 ! \\\\ \\\"\"",
        b".equ limit, 4096",
    ];
    assert!(rt; each_has(rt.alloc(), &texts, None));
}

#[test]
fn lines_are_refused(rt: HostRuntime) {
    let texts: [&[u8]; 6] = [
        b"01: nop",
        b"nop \"",
        b".ascii \"\\q\"",
        b"1f: nop",
        b"add %g1, %g2",
        b".word 1 2",
    ];
    assert!(rt; each_has(rt.alloc(), &texts, Some(Refused::By(LineFault::Syntax))));
}
