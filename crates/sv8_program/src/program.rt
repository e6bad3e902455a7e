//! A program's run: the words, the script, the answers.

ghost use Rattle.std.specs.Prelude.{◌≡◌, ◌⊎◌, ℕ, List, IsTrue, map};
ghost use Rattle.clap.specs.Words.{Kinds, kind_of};
ghost use Rattle.sv8_session.specs.Language.{Language};
ghost use Rattle.sv8_program.specs.Windows.{is_window_count};
ghost use Rattle.sv8_program.specs.Words.{MayFailBy};
ghost use Rattle.sv8_program.specs.Ends.{EndsBy, IntoSome, Serves, is_run_end, refusal_end};

use crate::end::{End, refusal_end, status_of, tell_end};
use crate::words::{Description, not_text, settings};
use std::alloc::Global;
use std::env;
use std::fs::File;
use std::io::{self, BufWriter, Read, Write};
use std::process::ExitCode;

/// A program that runs a script, as a name for what it does.
pub trait Program {
    // What its commands are, and what is kept where a run over so many windows begins.
    ghost Kept: { Type 0 };

    ghost Order: { Type 0 };

    ghost language: { Language Kept Order };

    ghost start: { ℕ → Kept };

    // What it is called.
    ghost NAME: { List ℕ };

    /// What it is called, and what its help tells.
    fn description() -> Description
        ensures { result.name.now ≡ NAME };

    /// Runs a script over so many register windows.
    fn serve<R: Read, W: Write>(alloc: Global, windows: u32, reader: &mut R, writer: &mut W) -> End
        requires { IsTrue (is_window_count windows) }
        ensures run { IsTrue (is_run_end result) }
        ensures serves { Serves language (start windows) result (R.remaining reader.old) (R.remaining reader.new)
            (W.contents writer.old) (W.contents writer.new) };
}

/// Runs what a reader gives, and writes the answers to standard output.
fn answer<P: Program, R: Read>(rt: &HostRuntime, windows: u32, reader: &mut R) -> End
    requires { IsTrue (is_window_count windows) }
    ensures run { IsTrue (is_run_end result) }
    ensures serves { IntoSome (Serves P.language (P.start windows) result (R.remaining reader.old) (R.remaining reader.new))
        ⊎ ((result ≡ End.Memory) × (R.remaining reader.new ≡ R.remaining reader.old)) }
{
    let alloc = rt.alloc();
    let Ok(mut writer) = BufWriter::new(alloc, rt.stdout()) else {
        return End::Memory;
    };
    P::serve(alloc, windows, reader, &mut writer)
}

/// Reads the words, then opens the script.
pub fn obey<P: Program>(rt: &HostRuntime, words: &[&str]) -> End
    ensures { (result ≡ End.Memory)
        ⊎ ((kinds : Kinds) × MayFailBy P.NAME (map (λ w. w.now) words.now) kinds × EndsBy kinds result) }
{
    let chosen = match settings(rt.alloc(), P::description(), words) {
        Ok(chosen) => chosen,
        Err(error) => return refuse(rt, &error),
    };
    match chosen.script {
        None => answer::<P, _>(rt, chosen.windows, &mut rt.stdin()),
        Some(path) => match File::open(rt, path) {
            Ok(mut file) => answer::<P, _>(rt, chosen.windows, &mut file),
            Err(_) => End::NoScript,
        },
    }
}

/// Prints what `clap` says of the words.
fn refuse(rt: &HostRuntime, error: &clap::Error) -> End
    ensures { result ≡ refusal_end (kind_of error.now) }
{
    let end = refusal_end(error.kind());
    if end != End::Memory {
        // Where the text cannot be written, the status still tells.
        let _ = error.print(rt);
    }
    end
}

/// Prints that a word is no text.
pub fn refuse_bytes(rt: &HostRuntime, description: Description) -> End
    ensures { (result ≡ End.Memory) ⊎ (result ≡ End.Usage) }
{
    match not_text(rt.alloc(), description) {
        Ok(error) => refuse(rt, &error),
        Err(_) => End::Memory,
    }
}

/// Reads the words that the program was started with, and obeys them.
fn run_words<P: Program>(rt: &HostRuntime) -> End {
    let all = match env::args(rt) {
        Ok(all) => all,
        Err(error) if error.kind() == io::ErrorKind::OutOfMemory => return End::Memory,
        Err(_) => return refuse_bytes(rt, P::description()),
    };
    let Ok(owned) = all.skip(1).collect::<Vec<String>>(rt.alloc()) else {
        return End::Memory;
    };
    let Ok(words) = owned
        .iter()
        .map(|word| word.as_str())
        .collect::<Vec<&str>>(rt.alloc())
    else {
        return End::Memory;
    };
    obey::<P>(rt, &words)
}

/// The whole run: what a program's `main` calls. Where a script could not be run to its end, standard error and the exit status tell why.
pub fn run_program<P: Program>(rt: &HostRuntime) -> ExitCode {
    let end = run_words::<P>(rt);
    // Where the line cannot be written, the status still tells.
    let _ = tell_end(&mut rt.stderr(), P::description().name, end);
    ExitCode::from(status_of(end))
}
