//! The lines that show a machine, added to a text.

ghost use Rattle.std.specs.Prelude.{◌≡◌, ◌+◌, ◌≤◌, ◌++◌, length};
ghost use Rattle.sv8_answers.specs.Text.{mode_name, flag, step_text, counters_text, control_text, window_text, units_text, regs_text};

use sv8_commands::text::Text;
use sv8_commands::texts::add_words_line;
use sv8_workbench::Shown;

fn mode_name(running: bool) -> &'static [u8]
    ensures name { result.now ≡ mode_name running }
    ensures len { length result.now ≤ 5 }
{
    if running { b"run" } else { b"error" }
}

fn flag(value: bool) -> &'static [u8]
    ensures flag { result.now ≡ flag value }
    ensures len { length result.now ≡ 1 }
{
    if value { b"1" } else { b"0" }
}

#[tactic(auto, unfolding(crate::specs::Text::step_text))]
fn add_step(text: &mut Text, step: u32, shown: &Shown)
    requires room { length text.old + 22 ≤ 4096 }
    ensures text { text.new ≡ text.old ++ step_text step shown.now }
    ensures len { length text.new ≤ length text.old + 22 }
{
    text.add(b"step ");
    text.add_decimal(step);
    text.add(b" ");
    text.add(mode_name(shown.running));
    text.add(b"\n");
}

#[tactic(auto, unfolding(crate::specs::Text::counters_text))]
fn add_counters(text: &mut Text, shown: &Shown)
    requires room { length text.old + 33 ≤ 4096 }
    ensures text { text.new ≡ text.old ++ counters_text shown.now }
    ensures len { length text.new ≡ length text.old + 33 }
{
    text.add(b"pc ");
    text.add_word(shown.pc);
    text.add(b" npc ");
    text.add_word(shown.npc);
    text.add(b" annul ");
    text.add(flag(shown.annul));
    text.add(b"\n");
}

#[tactic(auto, unfolding(crate::specs::Text::control_text))]
fn add_control(text: &mut Text, shown: &Shown)
    requires room { length text.old + 50 ≤ 4096 }
    ensures text { text.new ≡ text.old ++ control_text shown.now }
    ensures len { length text.new ≡ length text.old + 50 }
{
    text.add(b"psr ");
    text.add_word(shown.psr);
    text.add(b" wim ");
    text.add_word(shown.wim);
    text.add(b" tbr ");
    text.add_word(shown.tbr);
    text.add(b" y ");
    text.add_word(shown.y);
    text.add(b"\n");
}

/// The registers of the current window.
#[tactic(auto, unfolding(crate::specs::Text::window_text))]
fn add_window(text: &mut Text, registers: &[u32; 32])
    requires room { length text.old + 304 ≤ 4096 }
    ensures text { text.new ≡ text.old ++ window_text registers.now }
    ensures len { length text.new ≤ length text.old + 304 }
{
    add_words_line(text, b"g", &registers[0..8]);
    add_words_line(text, b"o", &registers[8..16]);
    add_words_line(text, b"l", &registers[16..24]);
    add_words_line(text, b"i", &registers[24..32]);
}

/// The memory management unit, and the devices.
#[tactic(auto, unfolding(crate::specs::Text::units_text))]
fn add_units(text: &mut Text, shown: &Shown)
    requires room { length text.old + 152 ≤ 4096 }
    ensures text { text.new ≡ text.old ++ units_text shown.now }
    ensures len { length text.new ≤ length text.old + 152 }
{
    let mmu = [
        shown.mmu.control,
        shown.mmu.table_pointer,
        shown.mmu.context,
        shown.mmu.fault_status,
        shown.mmu.fault_address,
    ];
    let devices = [
        shown.timer.count,
        shown.timer.reload,
        shown.pending,
        shown.waiting,
    ];
    add_words_line(text, b"mmu", &mmu);
    add_words_line(text, b"dev", &devices);
}

/// The nine lines of `regs`.
#[tactic(auto, unfolding(crate::specs::Text::regs_text))]
pub(crate) fn add_regs(text: &mut Text, step: u32, shown: &Shown)
    requires room { length text.old + 561 ≤ 4096 }
    ensures text { text.new ≡ text.old ++ regs_text step shown.now }
    ensures len { length text.new ≤ length text.old + 561 }
{
    add_step(text, step, shown);
    add_counters(text, shown);
    add_control(text, shown);
    add_window(text, &shown.registers);
    add_units(text, shown);
}
