//! Lines that are commands, and lines that are not.

use std::test::Fail;
use sv8_commands::{Command, Query, next_word, parse_command};
use sv8_program::Program;
use sv8_shell::Sparc8;
use sv8_time::TimelineEdit;

/// The step of which a line asks the registers.
fn step_of_regs(line: &[u8]) -> Option<u32> {
    match parse_command(line) {
        Ok(Command::Ask(Query::Regs { step })) => Some(step),
        _ => None,
    }
}

/// Whether a line asks for the listing.
fn asks_for_the_listing(line: &[u8]) -> bool {
    match parse_command(line) {
        Ok(Command::Ask(Query::Listing)) => true,
        _ => false,
    }
}

#[test]
fn lines_that_ask(rt: HostRuntime) -> Result<(), Fail> {
    assert!(rt; asks_for_the_listing(b"list"));
    assert!(rt; asks_for_the_listing(b"\t list \t"));
    assert!(rt; step_of_regs(b"regs 0") == Some(0));
    assert!(rt; step_of_regs(b"regs 1000001") == Some(1_000_001));
    assert!(rt; step_of_regs(b"regs 4294967295") == Some(u32::MAX));
    assert!(rt; step_of_regs(b"regs 0000000007") == Some(7));
    Ok(())
}

#[test]
fn lines_that_edit_the_source_or_end(rt: HostRuntime) -> Result<(), Fail> {
    assert!(rt; matches!(parse_command(b"quit"), Ok(Command::Quit)));
    assert!(rt;
        matches!(
            parse_command(b"edit 1 0 4"),
            Ok(Command::Edit {
                first: 1,
                last: 0,
                count: 4
            })
        )
    );
    assert!(rt;
        matches!(
            parse_command(b" edit\t12 \t 34 56 "),
            Ok(Command::Edit {
                first: 12,
                last: 34,
                count: 56
            })
        )
    );
    Ok(())
}

/// The edit of the timeline that a line is.
fn edit_in(line: &[u8]) -> Option<TimelineEdit<'_>> {
    match parse_command(line) {
        Ok(Command::Timeline(edit)) => Some(edit),
        _ => None,
    }
}

#[test]
fn lines_that_poke(rt: HostRuntime) -> Result<(), Fail> {
    assert!(rt;
        matches!(
            edit_in(b"\tpoke\t0000000005  0000fFfC AbCdEf01 "),
            Some(TimelineEdit::SetPoke {
                step: 5,
                address: 0xfffc,
                value: 0xabcd_ef01
            })
        )
    );
    assert!(rt;
        matches!(
            edit_in(b"unpoke 4294967295 FFFFFFFF"),
            Some(TimelineEdit::ClearPoke {
                step: u32::MAX,
                address: u32::MAX
            })
        )
    );
    assert!(rt;
        matches!(
            edit_in(b"pokeb 5 101 aA"),
            Some(TimelineEdit::SetPokeByte {
                step: 5,
                address: 0x101,
                value: 0xaa
            })
        )
    );
    assert!(rt;
        matches!(
            edit_in(b"unpokeb 10 10"),
            Some(TimelineEdit::ClearPokeByte {
                step: 10,
                address: 16
            })
        )
    );
    Ok(())
}

#[test]
fn lines_that_edit_other_events(rt: HostRuntime) -> Result<(), Fail> {
    assert!(rt;
        matches!(
            edit_in(b"uninput 10"),
            Some(TimelineEdit::ClearInput { step: 10 })
        )
    );
    assert!(rt;
        matches!(
            edit_in(b"irq 10 10"),
            Some(TimelineEdit::SetRequest {
                step: 10,
                level: 10
            })
        )
    );
    assert!(rt;
        matches!(
            edit_in(b"unirq 10 99"),
            Some(TimelineEdit::ClearRequest {
                step: 10,
                level: 99
            })
        )
    );
    Ok(())
}

/// Whether a line sets these bytes as the input of step 3.
fn is_input(line: &[u8], wanted: &[u8]) -> bool {
    match parse_command(line) {
        Ok(Command::Input { step: 3, bytes }) => bytes.first().as_slice() == wanted,
        _ => false,
    }
}

#[test]
fn bytes_of_an_input(rt: HostRuntime) -> Result<(), Fail> {
    assert!(rt; is_input(b"input 3 09", &[0x09]));
    assert!(rt; is_input(b"input 3\tafFA4142  ", &[0xaf, 0xfa, 0x41, 0x42]));
    Ok(())
}

#[test]
fn lines_that_edit_no_timeline(rt: HostRuntime) -> Result<(), Fail> {
    let lines: [&[u8]; 25] = [
        b"poke",
        b"poke 0 0",
        b"poke 0 0 0 0",
        b"poke 0 000000000 0",
        b"poke 0 0 123456789",
        b"poke 0 0x0 0",
        b"poke 0 g 0",
        b"poke 0 0 -1",
        b"poke a 0 0",
        b"poke 00000000001 0 0",
        b"Poke 0 0 0",
        b"unpoke 0",
        b"unpoke 0 0 0",
        b"pokeb 0 0 100",
        b"pokeb 0 0 001",
        b"pokeb 0 0",
        b"unpokeb 0 0 0",
        b"input 0",
        b"input 0 4",
        b"input 0 414",
        b"input 0 4g",
        b"input 0 41 42",
        b"uninput 0 0",
        b"irq 0 f",
        b"unirq 0",
    ];
    for line in lines {
        assert!(rt; parse_command(line).is_err());
    }
    Ok(())
}

#[test]
fn lines_that_are_none(rt: HostRuntime) -> Result<(), Fail> {
    let lines: [&[u8]; 24] = [
        b"",
        b" \t ",
        b"\r",
        b"frob",
        b"List",
        b"lists",
        b"list 1",
        b"list\r",
        b"quit now",
        b"regs",
        b"regs 1 2",
        b"regs x",
        b"regs -1",
        b"regs +1",
        b"regs 0x1",
        b"regs 1.0",
        b"regs 4294967296",
        b"regs 9999999999",
        b"regs 00000000001",
        b"edit 1 0",
        b"edit 1 0 4 5",
        b"edit 1,0 4 5",
        b"edit1 0 4",
        b"\0list",
    ];
    for line in lines {
        assert!(rt; parse_command(line).is_err());
    }
    Ok(())
}

/// The name of an edit of the timeline.
fn name_of_edit(edit: &TimelineEdit<'_>) -> &'static [u8] {
    match edit {
        TimelineEdit::SetPoke { .. } => b"poke",
        TimelineEdit::ClearPoke { .. } => b"unpoke",
        TimelineEdit::SetPokeByte { .. } => b"pokeb",
        TimelineEdit::ClearPokeByte { .. } => b"unpokeb",
        TimelineEdit::SetInput { .. } => b"input",
        TimelineEdit::ClearInput { .. } => b"uninput",
        TimelineEdit::SetRequest { .. } => b"irq",
        TimelineEdit::ClearRequest { .. } => b"unirq",
    }
}

/// The name of a query.
fn name_of_query(query: Query) -> &'static [u8] {
    match query {
        Query::Listing => b"list",
        Query::Regs { .. } => b"regs",
        Query::Mem { .. } => b"mem",
        Query::Out { .. } => b"out",
    }
}

/// The name of a command.
fn name_of(command: &Command<'_>) -> &'static [u8] {
    match command {
        Command::Edit { .. } => b"edit",
        Command::Input { .. } => b"input",
        Command::Timeline(edit) => name_of_edit(edit),
        Command::Ask(query) => name_of_query(*query),
        Command::Quit => b"quit",
    }
}

/// Whether a line of the help begins with this word.
fn help_has(name: &[u8]) -> bool {
    for line in Sparc8::description().commands.lines() {
        if let Some((word, _)) = next_word(line.as_bytes())
            && word == name
        {
            return true;
        }
    }
    false
}

/// Whether a line is a command whose name begins a line of the help.
fn is_in_the_help(line: &[u8]) -> bool {
    match parse_command(line) {
        Ok(command) => help_has(name_of(&command)),
        Err(_) => false,
    }
}

#[test]
fn help_has_a_line_of_each_command(rt: HostRuntime) -> Result<(), Fail> {
    let lines: [&[u8]; 14] = [
        b"edit 1 0 4",
        b"poke 0 0 0",
        b"unpoke 0 0",
        b"pokeb 0 0 0",
        b"unpokeb 0 0",
        b"input 0 41",
        b"uninput 0",
        b"irq 0 1",
        b"unirq 0 1",
        b"list",
        b"regs 0",
        b"mem 0 0 1",
        b"out 0",
        b"quit",
    ];
    for line in lines {
        assert!(rt; is_in_the_help(line));
    }
    Ok(())
}
