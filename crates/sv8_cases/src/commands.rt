//! Where the commands of a script end.

ghost use Rattle.std.specs.Prelude.{◌≤◌, length};

use sv8_commands::{Command, parse_command};
use sv8_difference::line_end;

/// How many lines a command takes beside its own.
fn lines_taken(line: &[u8]) -> u32 {
    match parse_command(line.trim_ascii_end()) {
        Ok(Command::Edit { count, .. }) => count,
        _ => 0,
    }
}

/// Where the first command of a script ends: behind its line, and for an edit behind the lines that it takes.
pub fn command_end(script: &[u8]) -> usize
    ensures { result ≤ length script.now }
{
    let mut end = line_end(script);
    for _line in 0..lines_taken(&script[..end]) {
        if end == script.len() {
            return end;
        }
        end += line_end(&script[end..]);
    }
    end
}
