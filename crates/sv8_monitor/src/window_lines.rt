//! The lines of the register windows.

ghost use Rattle.std.specs.Prelude.{◌≡◌, ◌+◌, ◌<◌, ◌≤◌, ◌++◌, length};
ghost use Rattle.sv8_commands.specs.Put.{Gains};
ghost use Rattle.sv8_monitor.specs.Texts.{own_registers, window_line, windows_text};

use std::io::Write;
use sv8_commands::put::{WriteFault, make_room};
use sv8_commands::text::Text;
use sv8_commands::texts::add_words;
use sv8_regs::Regs;

/// How long a line is at most.
const LONGEST: usize = 160;

/// Registers 8 to 23 of the current window: its outs and its locals.
fn own_registers<const NW: usize>(registers: &Regs<NW>) -> [u32; 16]
    requires { NW ≤ 32 }
    ensures { result ≡ own_registers NW registers.now }
{
    let mut own = [0; 16];
    for place in 0..16u32 {
        own[place as usize] = registers.get(place + 8);
    }
    own
}

/// The line of a window.
#[tactic(auto, unfolding(crate::specs::Texts::window_line))]
fn add_window(text: &mut Text, number: u32, registers: &[u32])
    requires few { length registers.now ≤ 16 }
    requires room { length text.old + 160 ≤ 4096 }
    ensures text { text.new ≡ text.old ++ window_line number registers.now }
    ensures len { length text.new ≤ length text.old + 160 }
{
    text.add(b"w ");
    text.add_decimal(number);
    add_words(text, registers);
    text.add(b"\n");
}

/// The line of a window, which is put where the text has no room for it.
fn put_window<const NW: usize, W: Write>(
    writer: &mut W,
    text: &mut Text,
    registers: &Regs<NW>,
    window: u32,
) -> Result<(), WriteFault>
    requires few { NW ≤ 32 }
    requires window { window < NW }
    ensures { Gains result (W.contents writer.old) (W.contents writer.new) text.old text.new
        (window_line window (own_registers NW (record registers.now { cwp = window }))) }
{
    let mut shown = registers.copy();
    shown.set_cwp(window);
    let own = own_registers(&shown);
    make_room(writer, text, LONGEST)?;
    add_window(text, window, &own);
    Ok(())
}

/// The lines of all windows.
pub fn put_windows<const NW: usize, W: Write>(
    writer: &mut W,
    text: &mut Text,
    registers: &Regs<NW>,
) -> Result<(), WriteFault>
    requires { NW ≤ 32 }
    ensures { Gains result (W.contents writer.old) (W.contents writer.new) text.old text.new
        (windows_text NW registers.now) }
{
    for window in 0..NW as u32 {
        put_window(writer, text, registers, window)?;
    }
    Ok(())
}
