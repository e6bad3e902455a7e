//! That the calls of a source which take memory answer where there is enough of it: a body that always gave up would meet every contract.

use std::alloc::Global;
use std::test::*;
use sv8_model::Refused;
use sv8_source::{Source, SourceFault};

/// These lines.
fn lines(alloc: Global, texts: &[&[u8]]) -> Result<Vec<Vec<u8>>, Fail> {
    let mut lines = Vec::new(alloc);
    for text in texts {
        lines.push(Vec::from_slice(alloc, text)?)?;
    }
    Ok(lines)
}

/// So many empty lines.
fn empty_lines(alloc: Global, count: usize) -> Result<Vec<Vec<u8>>, Fail> {
    let mut lines = Vec::new(alloc);
    for _ in 0..count {
        lines.push(Vec::new(alloc))?;
    }
    Ok(lines)
}

/// Whether the lines from `first` to `last` become these.
fn replaces(alloc: Global, source: &mut Source, first: u32, last: u32, lines: &[Vec<u8>]) -> bool {
    source.replace(alloc, first, last, lines).is_ok()
}

/// Whether a plan of lines in front is made, and carried out.
fn commits(alloc: Global, source: &mut Source, lines: &[Vec<u8>]) -> bool {
    match source.plan(alloc, 1, 0, lines) {
        Ok(plan) => {
            source.commit(plan);
            true
        }
        Err(_) => false,
    }
}

/// Whether lines in front are too many.
fn has_no_room(alloc: Global, source: &Source, lines: &[Vec<u8>]) -> bool {
    match source.plan(alloc, 1, 0, lines) {
        Ok(_) => false,
        Err(fault) => fault == Refused::By(SourceFault::TooManyLines),
    }
}

/// Whether a source takes a text, one more line, a line in the place of another, and lines in front.
fn takes_edits(alloc: Global, source: &mut Source, text: &[Vec<u8>], line: &[Vec<u8>]) -> bool {
    replaces(alloc, source, 1, 0, text)
        && replaces(alloc, source, 4, 3, line)
        && replaces(alloc, source, 2, 2, line)
        && commits(alloc, source, line)
}

#[test]
fn memory_is_enough(rt: HostRuntime) -> Result<(), Fail> {
    let mut source = Source::new(rt.alloc(), 64);
    let text = lines(rt.alloc(), &[b"x: ba 1f", b"nop", b"1: .half x, 1b"])?;
    let line = lines(rt.alloc(), &[b".half 5, 6"])?;
    assert!(rt; takes_edits(rt.alloc(), &mut source, text.as_slice(), line.as_slice()));
    Ok(())
}

/// Whether a source takes so many lines and one of them again, and then not another one.
fn is_filled_by(alloc: Global, source: &mut Source, many: &[Vec<u8>], line: &[Vec<u8>]) -> bool {
    replaces(alloc, source, 1, 0, many)
        && source.line_count() == 65_536
        && has_no_room(alloc, source, line)
        && replaces(alloc, source, 7, 7, line)
}

#[test]
fn as_many_lines_as_may_be(rt: HostRuntime) -> Result<(), Fail> {
    let mut source = Source::new(rt.alloc(), 0);
    let many = empty_lines(rt.alloc(), 65_536)?;
    let line = empty_lines(rt.alloc(), 1)?;
    assert!(rt; is_filled_by(rt.alloc(), &mut source, many.as_slice(), line.as_slice()));
    Ok(())
}

#[test]
fn one_line_more_than_may_be(rt: HostRuntime) -> Result<(), Fail> {
    let source = Source::new(rt.alloc(), 0);
    let many = empty_lines(rt.alloc(), 65_537)?;
    assert!(rt; has_no_room(rt.alloc(), &source, many.as_slice()));
    Ok(())
}
