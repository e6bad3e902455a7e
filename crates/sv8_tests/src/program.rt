//! Tests of the program's words, of its help, and of its ends.

use std::alloc::Global;
use std::io::{self, ErrorKind, Read, Write};
use std::test::Fail;
use sv8_program::{End, Program, obey, refuse_bytes, settings, status_of, tell_end};
use sv8_shell::Sparc8;

#[test]
fn words_are_read(rt: HostRuntime) -> Result<(), Fail> {
    let none = settings(rt.alloc(), Sparc8::description(), &[])?;
    assert_eq!(rt; none.windows, 8);
    assert!(rt; none.script.is_none());
    let two = settings(rt.alloc(), Sparc8::description(), &["--windows", "2", "x"])?;
    assert_eq!(rt; two.windows, 2);
    assert!(rt; two.script == Some("x"));
    assert!(rt; settings(rt.alloc(), Sparc8::description(), &["--windows", "3"]).is_err());
    assert!(rt; settings(rt.alloc(), Sparc8::description(), &["x", "y"]).is_err());
    assert!(rt; settings(rt.alloc(), Sparc8::description(), &["--help"]).is_err());
    Ok(())
}

fn ends(alloc: Global, end: End, status: u8, line: &[u8]) -> io::Result<bool> {
    let mut told = Vec::new(alloc);
    tell_end(&mut told, "sparc8", end)?;
    Ok(status_of(end) == status && told.as_slice() == line)
}

#[test]
fn ends_have_their_status(rt: HostRuntime) -> Result<(), Fail> {
    let alloc = rt.alloc();
    assert!(rt; ends(alloc, End::Done, 0, b"")?);
    assert!(rt; ends(alloc, End::Help, 0, b"")?);
    assert!(rt; ends(alloc, End::Usage, 2, b"")?);
    assert!(rt; ends(alloc, End::ReadFault, 3, b"sparc8: read fault\n")?);
    assert!(rt; ends(alloc, End::WriteFault, 3, b"sparc8: write fault\n")?);
    assert!(rt; ends(alloc, End::TooMany, 3, b"sparc8: too many commands\n")?);
    assert!(rt; ends(alloc, End::NoScript, 3, b"sparc8: cannot open script\n")?);
    assert!(rt; ends(alloc, End::Memory, 3, b"sparc8: out of memory\n")?);
    Ok(())
}

/// What `--help` tells: the words as `clap` lays them out, and the commands of docs/COMMANDS.md.
const HELP: &str = "A workbench for SPARC V8 programs: edits and queries at any step

Usage: sparc8 [OPTIONS] [SCRIPT]

Arguments:
  [SCRIPT]  The script of commands; standard input if there is none

Options:
      --windows <N>  The number of register windows [default: 8] [possible values: 2, 4, 8, 16, 32]
  -h, --help         Print help

Commands of a script, one a line (N is a step):
  edit A B COUNT      the COUNT lines that follow replace lines A to B of the source; B = A - 1 inserts before A
  poke N ADDR VALUE   at step N the word at ADDR gets this value
  unpoke N ADDR       clears what is poked at step N in the word at ADDR
  pokeb N ADDR VALUE  at step N the byte at ADDR gets this value
  unpokeb N ADDR      clears the poke of this byte at step N
  input N BYTES       at step N these bytes come in at the console
  uninput N           no bytes come in at step N
  irq N LEVEL         at step N an interrupt of this level, 1 to 15, is requested
  unirq N LEVEL       clears this request
  list                shows the listing
  regs N              shows the machine at step N
  mem N ADDR COUNT    shows COUNT words of RAM at step N from ADDR on
  out N               shows the bytes put out at the console below step N
  quit                ends the run

The guide to commands and answers is docs/COMMANDS.md, and to source lines docs/ASSEMBLER.md.
";

#[test]
fn help_tells_the_commands(rt: HostRuntime) -> Result<(), Fail> {
    let Err(error) = settings(rt.alloc(), Sparc8::description(), &["--help"]) else {
        return Err(Fail::from("the help is no script"));
    };
    let text = format!(in rt.alloc(); "{error}")?;
    assert!(rt; text.as_str() == HELP, "{text}");
    Ok(())
}

#[test]
fn words_end_the_program(rt: HostRuntime) {
    assert!(rt; obey::<Sparc8>(&rt, &["--help"]) == End::Help);
    assert!(rt; obey::<Sparc8>(&rt, &["--windows", "3"]) == End::Usage);
    assert!(rt; refuse_bytes(&rt, Sparc8::description()) == End::Usage);
    assert!(rt; obey::<Sparc8>(&rt, &["no such script"]) == End::NoScript);
    // A folder can be opened, and not read.
    assert!(rt; obey::<Sparc8>(&rt, &["/"]) == End::ReadFault);
}

/// Neither gives nor takes a byte.
#[derive(Drop)]
struct Broken;

impl Read for Broken {
    fn read(&mut self, _buf: &mut [u8]) -> io::Result<usize> {
        Err(io::Error::from(ErrorKind::Other))
    }
}

impl Write for Broken {
    fn write(&mut self, _buf: &[u8]) -> io::Result<usize> {
        Err(io::Error::from(ErrorKind::Other))
    }

    fn flush(&mut self) -> io::Result<()> {
        Err(io::Error::from(ErrorKind::Other))
    }
}

#[test]
fn runs_end_the_program(rt: HostRuntime) -> Result<(), Fail> {
    let alloc = rt.alloc();
    let mut written = Vec::new(alloc);
    let mut script = b"list\n".as_slice();
    assert!(rt; Sparc8::serve(alloc, 8, &mut script, &mut written) == End::Done);
    assert!(rt; written.as_slice() == b"ok\n".as_slice());
    assert!(rt; Sparc8::serve(alloc, 8, &mut Broken, &mut written) == End::ReadFault);
    let mut script = b"list\n".as_slice();
    assert!(rt; Sparc8::serve(alloc, 8, &mut script, &mut Broken) == End::WriteFault);
    let lines = vec![in alloc; b'\n'; 1_000_001]?;
    let mut script = lines.as_slice();
    assert!(rt; Sparc8::serve(alloc, 8, &mut script, &mut written) == End::TooMany);
    assert!(rt; written.as_slice() == b"ok\n".as_slice());
    Ok(())
}
