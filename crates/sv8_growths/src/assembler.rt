//! Reads lines, defines names, assembles, edits a source, copies it and tells its names: each call that is refused
//! memory leaves all as it was, and each other one does what it should.

use std::alloc::{AllocError, Global};
use sv8_asm::{Symbols, assemble, size_of};
use sv8_model::Refused;
use sv8_source::{DefinedName, Source};
use sv8_statements::Stmt;
use sv8_syntax::parse_line;

/// Lines, and what each places as line 3 at location 16, where `x` is 8 and the local label 1 stands in line 2 at 4 and in line 5 at 32.
const LINES: [(&[u8], &[u8]); 6] = [
    (b"add %g1, x, %g2", b"\x84\x00\x60\x08"),
    (b"here: ba 1f", b"\x10\x80\x00\x04"),
    (b"ba 1b", b"\x10\xbf\xff\xfd"),
    (b"set 0x12345678, %g1", b"\x03\x04\x8d\x15\x82\x10\x62\x78"),
    (b".half x, x+4, 1b", b"\x00\x08\x00\x0c\x00\x04"),
    (b".ascii \"abc\"", b"abc"),
];

/// A source, and what it becomes when its second line is replaced by two.
const TEXT: [&[u8]; 4] = [b"start: ba end", b"nop", b"end: ba start", b"nop"];

const PUT_IN: [&[u8]; 2] = [b"mov 5, %g1", b"mov 6, %g2"];

/// The words of the image before and after.
const BEFORE: [u32; 5] = [0x1080_0002, 0x0100_0000, 0x10bf_fffe, 0x0100_0000, 0];

const AFTER: [u32; 5] = [
    0x1080_0003,
    0x8210_2005,
    0x8410_2006,
    0x10bf_fffd,
    0x0100_0000,
];

/// The statement of a line, at the second try where memory was refused at the first.
fn statement(alloc: Global, text: &[u8]) -> Option<Stmt> {
    match parse_line(alloc, text) {
        Ok(stmt) => Some(stmt),
        Err(Refused::OutOfMemory) => parse_line(alloc, text).ok(),
        Err(_) => None,
    }
}

/// Whether a statement places these bytes at 16 as line 3, at the second try where memory was refused at the first.
fn places(alloc: Global, stmt: &Stmt, names: &Symbols, due: &[u8]) -> bool {
    match size_of(stmt, 16) {
        Ok(_) => match assemble(alloc, stmt, 3, 16, names) {
            Ok(bytes) => bytes.as_slice() == due,
            Err(Refused::OutOfMemory) => match assemble(alloc, stmt, 3, 16, names) {
                Ok(bytes) => bytes.as_slice() == due,
                Err(_) => false,
            },
            Err(_) => false,
        },
        Err(_) => false,
    }
}

/// Whether each line is read and assembled as it should be.
fn assembles(alloc: Global, names: &Symbols) -> bool {
    let mut holds = true;
    for (text, due) in LINES {
        holds = holds
            && match statement(alloc, text) {
                Some(stmt) => places(alloc, &stmt, names, due),
                None => false,
            };
    }
    holds
}

/// Whether a name gets its value, at the second try where memory was refused at the first; it then had none.
fn is_defined(alloc: Global, names: &mut Symbols, name: &[u8], value: i64) -> bool {
    let added = match names.define(alloc, name, value) {
        Ok(added) => added,
        Err(_) => names.get(name, 1).is_none() && names.define(alloc, name, value) == Ok(true),
    };
    added && names.get(name, 1) == Some(value)
}

/// Whether a line gets the local label 1, at the second try where memory was refused at the first; it then had none.
fn is_marked(names: &mut Symbols, line: u32, location: u32) -> bool {
    let before = names.get(b"1b", line);
    let marked = match names.define_local(1, line, location) {
        Ok(()) => true,
        Err(_) => {
            names.get(b"1b", line) == before && names.define_local(1, line, location).is_ok()
        }
    };
    marked && names.get(b"1b", line) == Some(i64::from(location))
}

fn defines(alloc: Global, names: &mut Symbols) -> bool {
    is_defined(alloc, names, b"x", 8)
        && is_defined(alloc, names, b"another_name", -1)
        && is_marked(names, 2, 4)
        && is_marked(names, 5, 32)
}

/// These lines.
fn lines(alloc: Global, texts: &[&[u8]]) -> Result<Vec<Vec<u8>>, AllocError> {
    let mut lines = Vec::new(alloc);
    for text in texts {
        lines.push(Vec::from_slice(alloc, text)?)?;
    }
    Ok(lines)
}

/// Whether the image of a source has these words.
fn has_image(source: &Source, due: [u32; 5]) -> bool {
    let mut holds = true;
    for index in 0..5u32 {
        holds = holds && due.get(index as usize).copied() == Some(source.image_word(4 * index));
    }
    holds
}

/// Whether lines become others, at the second try where memory was refused at the first; the source was then as before.
fn is_replaced(
    alloc: Global,
    source: &mut Source,
    range: (u32, u32),
    lines: &[Vec<u8>],
    before: [u32; 5],
    after: [u32; 5],
) -> bool {
    let replaced = match source.replace(alloc, range.0, range.1, lines) {
        Ok(_) => true,
        Err(Refused::OutOfMemory) => {
            has_image(source, before) && source.replace(alloc, range.0, range.1, lines).is_ok()
        }
        Err(_) => false,
    };
    replaced && has_image(source, after)
}

/// Whether a plan changes nothing until it is committed, and then does.
fn is_planned(alloc: Global, source: &mut Source, lines: &[Vec<u8>]) -> bool {
    let planned = match source.plan(alloc, 2, 2, lines) {
        Ok(plan) => Some(plan),
        Err(_) => source.plan(alloc, 2, 2, lines).ok(),
    };
    has_image(source, BEFORE)
        && match planned {
            Some(plan) => {
                source.commit(plan);
                has_image(source, AFTER)
            }
            None => false,
        }
}

/// Whether a copy has the same image, at the second try where memory was refused at the first.
fn is_copied(alloc: Global, source: &Source, due: [u32; 5]) -> bool {
    let copied = match source.copy(alloc) {
        Ok(copy) => has_image(&copy, due),
        Err(_) => match source.copy(alloc) {
            Ok(copy) => has_image(&copy, due),
            Err(_) => false,
        },
    };
    copied && has_image(source, due)
}

/// Whether names are `start` at 0 and `end`.
fn are_due(names: &[DefinedName<'_>], end: u32) -> bool {
    match names {
        [first, second] => {
            first.text == b"start".as_slice()
                && first.value == 0
                && second.text == b"end".as_slice()
                && second.value == end
        }
        _ => false,
    }
}

/// Whether the names are told, at the second try where memory was refused at the first.
fn tells_names(alloc: Global, source: &Source, end: u32) -> bool {
    match source.names(alloc) {
        Ok(names) => are_due(&names, end),
        Err(_) => match source.names(alloc) {
            Ok(names) => are_due(&names, end),
            Err(_) => false,
        },
    }
}

pub fn keeps(alloc: Global) -> Result<bool, AllocError> {
    let text = lines(alloc, &TEXT)?;
    let put_in = lines(alloc, &PUT_IN)?;
    let back = lines(alloc, &[b"nop"])?;
    let mut names = Symbols::new(alloc);
    let mut source = Source::new(alloc, 64);
    Ok(
        defines(alloc, &mut names)
            && assembles(alloc, &names)
            && is_replaced(alloc, &mut source, (1, 0), &text, [0; 5], BEFORE)
            && is_replaced(alloc, &mut source, (2, 2), &put_in, BEFORE, AFTER)
            && is_replaced(alloc, &mut source, (2, 3), &back, AFTER, BEFORE)
            && is_planned(alloc, &mut source, &put_in)
            && is_copied(alloc, &source, AFTER)
            && tells_names(alloc, &source, 12),
    )
}
