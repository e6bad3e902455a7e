//! That a source tells its names and is copied where there is memory for it: two by hand, and one of 4,096 lines.

use std::alloc::Global;
use std::test::*;
use sv8_source::{DefinedName, NameKind, Source};

/// A name as it is due: its value, what defines it, and its bytes.
type Due = (u32, NameKind, &'static [u8]);

/// Labels and numbers of the same value, a label and a number on one line, a local label, and a number below 0.
const MIXED: &[&[u8]] = &[
    b"nop",
    b"z: .equ Z, 4",
    b".equ n, -1",
    b"1: nop",
    b"ab: nop",
    b"a: .equ b, 12",
];

const MIXED_NAMES: &[Due] = &[
    (4, NameKind::Equ, b"Z"),
    (4, NameKind::Label, b"z"),
    (8, NameKind::Label, b"ab"),
    (12, NameKind::Label, b"a"),
    (12, NameKind::Equ, b"b"),
    (0xFFFF_FFFF, NameKind::Equ, b"n"),
];

/// The same once `z` and `Z` are gone: all behind them moves by nothing, since they place no byte.
const LESS_NAMES: &[Due] = &[
    (8, NameKind::Label, b"ab"),
    (12, NameKind::Label, b"a"),
    (12, NameKind::Equ, b"b"),
    (0xFFFF_FFFF, NameKind::Equ, b"n"),
];

/// How many pairs of lines the long source has.
const PAIRS: u32 = 2_048;

/// These lines.
fn lines(alloc: Global, texts: &[&[u8]]) -> Result<Vec<Vec<u8>>, Fail> {
    let mut lines = Vec::new(alloc);
    for text in texts {
        lines.push(Vec::from_slice(alloc, text)?)?;
    }
    Ok(lines)
}

/// The last hexadecimal digit of a number.
fn digit(number: u32) -> u8 {
    b"0123456789abcdef"[(number % 16) as usize]
}

/// A letter and a number in four hexadecimal digits.
fn spelled(letter: u8, number: u32) -> [u8; 5] {
    [
        letter,
        digit(number >> 12),
        digit(number >> 8),
        digit(number >> 4),
        digit(number),
    ]
}

/// The line of a label.
fn label_line(alloc: Global, number: u32) -> Result<Vec<u8>, Fail> {
    let mut line = Vec::from_slice(alloc, &spelled(b'l', number))?;
    line.extend_from_slice(b": nop")?;
    Ok(line)
}

/// The line that gives a name a number of four hexadecimal digits.
fn equ_line(alloc: Global, number: u32, value: u32) -> Result<Vec<u8>, Fail> {
    let mut line = Vec::from_slice(alloc, b".equ ")?;
    line.extend_from_slice(&spelled(b'e', number))?;
    line.extend_from_slice(b", 0x")?;
    let spelled_value = spelled(b'0', value);
    line.extend_from_slice(&spelled_value)?;
    Ok(line)
}

/// Pairs of lines: the label of pair k stands at 4k, and its name of `.equ` is the location of the label of the pair that
/// is as far from the end.
fn long_lines(alloc: Global) -> Result<Vec<Vec<u8>>, Fail> {
    let mut lines = Vec::new(alloc);
    for pair in 0..PAIRS {
        lines.push(label_line(alloc, pair)?)?;
        lines.push(equ_line(alloc, pair, 4 * (PAIRS - 1 - pair))?)?;
    }
    Ok(lines)
}

/// Whether a name is this one.
fn is_due(name: &DefinedName<'_>, due: Due) -> bool {
    name.value == due.0 && name.kind == due.1 && name.text == due.2
}

/// Whether a source has these names and no others.
fn has_names(alloc: Global, source: &Source, due: &[Due]) -> bool {
    match source.names(alloc) {
        Ok(names) => {
            let mut holds = names.len() == due.len();
            for (name, due) in names.iter().zip(due.iter()) {
                holds = holds && is_due(name, *due);
            }
            holds
        }
        Err(_) => false,
    }
}

/// Whether a name has this value, and as its text a letter and a number.
fn is_numbered(name: Option<&DefinedName<'_>>, value: u32, letter: u8, number: u32) -> bool {
    match name {
        Some(name) => name.value == value && name.text == spelled(letter, number).as_slice(),
        None => false,
    }
}

/// Whether the long source has its names: at each location the name of `.equ`, since e comes before l, and the label.
fn has_long_names(alloc: Global, source: &Source) -> bool {
    match source.names(alloc) {
        Ok(names) => {
            let mut holds = names.len() == 4_096;
            for pair in 0..PAIRS {
                let index = 2 * pair as usize;
                holds = holds
                    && is_numbered(names.get(index), 4 * pair, b'e', PAIRS - 1 - pair)
                    && is_numbered(names.get(index + 1), 4 * pair, b'l', pair);
            }
            holds
        }
        Err(_) => false,
    }
}

/// Whether the names are those of the lines, and a copy keeps them when the lines are edited.
fn tells(alloc: Global, source: &mut Source, text: &[Vec<u8>]) -> bool {
    if !has_names(alloc, source, &[]) || source.replace(alloc, 1, 0, text).is_err() {
        return false;
    }
    match source.copy(alloc) {
        Ok(copy) => {
            source.replace(alloc, 2, 2, &[]).is_ok()
                && has_names(alloc, source, LESS_NAMES)
                && has_names(alloc, &copy, MIXED_NAMES)
                && copy.line_count() == 6
        }
        Err(_) => false,
    }
}

/// Whether a source of many lines and its copy tell the names of them.
fn tells_many(alloc: Global, source: &mut Source, text: &[Vec<u8>]) -> bool {
    if source.replace(alloc, 1, 0, text).is_err() || !has_long_names(alloc, source) {
        return false;
    }
    match source.copy(alloc) {
        Ok(copy) => copy.line_count() == 4_096 && has_long_names(alloc, &copy),
        Err(_) => false,
    }
}

#[test]
fn names_are_told_by_value(rt: HostRuntime) -> Result<(), Fail> {
    let mut source = Source::new(rt.alloc(), 64);
    let text = lines(rt.alloc(), MIXED)?;
    assert!(rt; tells(rt.alloc(), &mut source, text.as_slice()));
    Ok(())
}

#[test]
fn names_of_many_lines_are_told(rt: HostRuntime) -> Result<(), Fail> {
    let mut source = Source::new(rt.alloc(), 0x10_000);
    let text = long_lines(rt.alloc())?;
    assert!(rt; tells_many(rt.alloc(), &mut source, text.as_slice()));
    Ok(())
}
