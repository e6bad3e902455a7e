//! The words of the command line.

ghost use Rattle.std.specs.Prelude.{◌≡◌, ◌⊎◌, IfOk, IfErr, IsTrue, map, option_map};
ghost use Rattle.clap.specs.Words.{app_of, kind_of};
ghost use Rattle.sv8_program.specs.Windows.{is_window_count};
ghost use Rattle.sv8_program.specs.Words.{Chooses, IsJudged, IsNotTaken, IsCommandLine, windows_of};

mod chosen;

pub use chosen::Settings;
use clap::error::ErrorKind;
use clap::{Arg, Command, Error};
use std::alloc::{AllocError, Global};

/// What a program is called, and what its help tells.
#[derive(Clone, Copy)]
pub struct Description {
    pub name: &'static str,
    /// What it is for, in a line.
    pub about: &'static str,
    /// What the help tells behind the options.
    pub commands: &'static str,
}

/// The command line that the program takes, without the program's name in front.
fn command_line<'a>(alloc: Global, description: Description) -> Result<Command<'a>, AllocError>
    ensures { IfOk result (λ c. IsCommandLine description.name.now (app_of c)) }
{
    let windows = Arg::new(alloc, "windows")
        .long("windows")
        .value_name("N")
        .help("The number of register windows")
        .value_parser(["2", "4", "8", "16", "32"].as_slice())
        .default_value("8");
    let script = Arg::new(alloc, "SCRIPT").help(
        "The script of commands; standard input if there is none",
    );
    let command = Command::new(alloc, description.name)
        .about(description.about)
        .after_help(description.commands)
        .no_binary_name(true)
        .arg(windows)?
        .arg(script)?;
    Ok(command)
}

/// Reads the words that follow the program's name.
///
/// # Errors
///
/// The error of `clap`, which also tells that the help was asked for, or that memory could not be had.
pub fn settings<'a>(
    alloc: Global,
    description: Description,
    words: &'a [&'a str],
) -> Result<Settings<'a>, Error>
    ensures chosen { IfOk result (λ s.
        Chooses description.name.now (map (λ w. w.now) words.entry.now) s.windows (option_map (λ t. t.now) s.script)) }
    ensures windows { IfOk result (λ s. IsTrue (is_window_count s.windows)) }
    ensures refused { IfErr result (λ e.
        (kind_of e ≡ ErrorKind.OutOfMemory) ⊎ IsNotTaken description.name.now (map (λ w. w.now) words.entry.now)) }
    ensures judged { IsJudged description.name.now (map (λ w. w.now) words.entry.now) result }
{
    let command = command_line(alloc, description)?;
    let matches = match command.try_get_matches_from(words) {
        Ok(matches) => matches,
        Err(error) => return Err(error),
    };
    Ok(Settings {
        windows: window_count(matches.get_str("windows")),
        script: matches.get_str("SCRIPT"),
    })
}

/// The error where a word is no text, which `clap` cannot be given.
///
/// # Errors
///
/// Memory could not be had.
pub fn not_text(alloc: Global, description: Description) -> Result<Error, AllocError>
    ensures { IfOk result (λ e. kind_of e ≡ ErrorKind.InvalidValue) }
{
    let mut command = command_line(alloc, description)?;
    command.error(
        ErrorKind::InvalidValue,
        "invalid UTF-8 was detected in one or more arguments",
    )
}

/// The number of windows that a word names, 8 where there is none.
fn window_count(word: Option<&str>) -> u32
    ensures value { result ≡ windows_of (option_map (λ w. w.now) word.entry) }
    ensures five { IsTrue (is_window_count result) }
{
    match word {
        Some("2") => 2,
        Some("4") => 4,
        Some("16") => 16,
        Some("32") => 32,
        _ => 8,
    }
}
