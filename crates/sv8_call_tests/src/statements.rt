//! That the assembler's calls which take memory answer where there is enough of it: a body that always gave up would meet every contract.

use std::alloc::Global;
use std::test::*;
use sv8_asm::{Symbols, assemble, size_of};
use sv8_syntax::parse_line;

/// Gives a name its value, and two lines a local label.
fn define(alloc: Global, names: &mut Symbols) -> Result<bool, Fail> {
    let added = names.define(alloc, b"x", 5)?;
    names.define_local(1, 1, 0)?;
    names.define_local(1, 4, 12)?;
    Ok(added)
}

/// Whether line 2 places so many bytes at location 4.
fn places(alloc: Global, text: &[u8], count: usize, names: &Symbols) -> Result<bool, Fail> {
    let stmt = parse_line(alloc, text)?;
    match size_of(&stmt, 4) {
        Ok(_) => {
            let bytes = assemble(alloc, &stmt, 2, 4, names)?;
            Ok(bytes.len() == count)
        }
        Err(_) => Ok(false),
    }
}

/// Whether lines that place bytes do: one word, two, data, and a text.
fn all_place(alloc: Global, names: &Symbols) -> Result<bool, Fail> {
    Ok(
        places(alloc, b"ba 1f", 4, names)?
            && places(alloc, b"set x, %g1", 8, names)?
            && places(alloc, b".half x, 1b, 2", 6, names)?
            && places(alloc, b".ascii \"abc\"", 3, names)?,
    )
}

#[test]
fn memory_is_enough(rt: HostRuntime) -> Result<(), Fail> {
    let mut names = Symbols::new(rt.alloc());
    assert!(rt; define(rt.alloc(), &mut names)? && all_place(rt.alloc(), &names)?);
    Ok(())
}
