//! The report: a line for each case that differs, and the counts.

use crate::case::{CaseFault, Spacing, Wanted, read_file, run_case};
use anyhow::{Context, Result};
use std::io::{BufWriter, Write};
use std::{env, fs};
use sv8_difference::first_difference;

/// The folder of the cases, which is the word behind the program's name, or else the one that it is run in; and the one case that is
/// asked for by a word behind it.
fn words(rt: &HostRuntime) -> Result<(String, Option<String>)> {
    let mut words = env::args(rt)?.skip(1);
    match words.next() {
        Some(folder) => Ok((folder, words.next())),
        None => Ok((String::from_str(rt.alloc(), ".")?, None)),
    }
}

/// The names of the cases, in order: what stands before the first dot in the name of each file.
fn case_names(rt: &HostRuntime, folder: &str) -> Result<Vec<String>> {
    let mut names = Vec::new(rt.alloc());
    for entry in fs::read_dir(rt, folder)? {
        let entry = entry?;
        if let Some((name, _)) = entry.file_name().split_once('.') {
            let name = String::from_str(rt.alloc(), name)?;
            names.push(name)?;
        }
    }
    names.sort()?;
    names.dedup();
    Ok(names)
}

/// Runs the case that is asked for, and writes what its commands answer, each with the counts after it, to standard output; or runs all
/// cases. Counts the cases that differ.
pub fn run_asked(rt: &HostRuntime) -> Result<u64> {
    match words(rt)? {
        (folder, Some(name)) => {
            show(rt, &folder, &name)?;
            Ok(0)
        }
        (folder, None) => run_cases(rt, &folder),
    }
}

/// Writes what the commands of a case answer, each with the counts after it.
fn show(rt: &HostRuntime, folder: &str, name: &str) -> Result<()> {
    let script = read_file(rt, folder, name, "txt")?;
    let shown = run_case(rt.alloc(), name, &script, Spacing::Wide, Wanted::Both)?;
    rt.stdout().write_all(&shown)?;
    Ok(())
}

/// Runs all cases, writes the report to standard output, and counts the cases that differ.
fn run_cases(rt: &HostRuntime, folder: &str) -> Result<u64> {
    let names = case_names(rt, folder).context("the folder cannot be read")?;
    let mut out = BufWriter::new(rt.alloc(), rt.stdout())?;
    let mut differing: u64 = 0;
    for name in &names {
        if !tell(rt, folder, name, &mut out)? {
            differing = differing.saturating_add(1);
        }
    }
    let count = names.len();
    writeln!(out, "{count} cases, {differing} differ")?;
    out.flush()?;
    Ok(differing)
}

/// Makes the runs of a case: one as the program, and one for each other spacing of checkpoints that it has counts of. Tells whether all
/// of them give what is due.
fn tell<W: Write>(rt: &HostRuntime, folder: &str, name: &str, out: &mut W) -> Result<bool> {
    let mut is_due = true;
    for spacing in [Spacing::Wide, Spacing::Four, Spacing::One] {
        let has_counts = read_file(rt, folder, name, spacing.ending()).is_ok();
        if has_counts || matches!(spacing, Spacing::Wide) {
            is_due &= tell_wanted(rt, folder, name, spacing, Wanted::Answer, out)?;
        }
        if has_counts {
            is_due &= tell_wanted(rt, folder, name, spacing, Wanted::Counts, out)?;
        }
    }
    Ok(is_due)
}

/// Makes a run of a case for one of these, and writes a line where it is not the one that is due. Tells whether it is.
fn tell_wanted<W: Write>(
    rt: &HostRuntime,
    folder: &str,
    name: &str,
    spacing: Spacing,
    wanted: Wanted,
    out: &mut W,
) -> Result<bool> {
    match texts(rt, folder, name, spacing, wanted) {
        Ok((due, came)) => compare(name, spacing, &due, &came, out),
        Err(fault) => {
            writeln!(out, "{name}: {fault}")?;
            Ok(false)
        }
    }
}

/// The text that is due to a run, and the one that came.
fn texts(
    rt: &HostRuntime,
    folder: &str,
    name: &str,
    spacing: Spacing,
    wanted: Wanted,
) -> Result<(Vec<u8>, Vec<u8>), CaseFault> {
    let ending = match wanted {
        Wanted::Answer => "answer",
        Wanted::Counts | Wanted::Both => spacing.ending(),
    };
    let script = read_file(rt, folder, name, "txt")?;
    let due = read_file(rt, folder, name, ending)?;
    let came = run_case(rt.alloc(), name, &script, spacing, wanted)?;
    Ok((due, came))
}

/// Writes where two texts of a run differ, if they do. Tells whether they are the same.
fn compare<W: Write>(
    name: &str,
    spacing: Spacing,
    due: &[u8],
    came: &[u8],
    out: &mut W,
) -> Result<bool> {
    match first_difference(due, came) {
        None => Ok(true),
        Some(at) => {
            let steps = spacing.steps();
            let line = at.line;
            let due = at.due.escape_ascii();
            let came = at.came.escape_ascii();
            writeln!(
                out,
                "{name}, {steps} steps a checkpoint, line {line}: due \"{due}\", came \"{came}\""
            )?;
            Ok(false)
        }
    }
}
