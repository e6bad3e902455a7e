//! What is told of an edit, of the machine's state, and of bytes.
ghost use Rattle.std.specs.Prelude.{◌≡◌, ◌+◌, ◌*◌, ◌≤◌, ◌++◌, length, IfOk, OnOk};
ghost use Rattle.sv8_session.specs.Put.{Puts};
ghost use Rattle.sv8_commands.specs.Text.{ok_line, memory_text, output_text};
ghost use Rattle.sv8_answers.specs.Put.{edit_text};
ghost use Rattle.sv8_answers.specs.Text.{regs_text};
ghost use Rattle.sv8_answers.specs.declared.effect.Effect.TheVariants.{Edited};

use crate::effect::{Effect, with_effect};
use crate::refusal::refusal_of;
use crate::texts::add_regs;
use std::io::Write;
use sv8_commands::memory::{add_memory, add_output};
use sv8_commands::put::{WriteFault, accept, done, refuse};
use sv8_commands::text::Text;
use sv8_model::Refused;
use sv8_workbench::{BenchFault, Shown};

/// The answer to an edit that came to this.
///
/// # Errors
///
/// `WriteFault` where the writer fails.
pub fn tell_edit<W: Write>(
    writer: &mut W,
    edit: Result<(), Refused<BenchFault>>,
) -> Result<Effect, WriteFault>
    ensures told { Puts result (W.contents writer.old) (W.contents writer.new) (edit_text edit) }
    ensures edited { OnOk edit (IfOk result (λ effect. effect ≡ Edited)) }
{
    match edit {
        Ok(()) => with_effect(done(writer), Effect::Edited),
        Err(fault) => with_effect(refuse(writer, refusal_of(fault)), Effect::Unchanged),
    }
}

/// The state of the machine at a step.
///
/// # Errors
///
/// `WriteFault` where the writer fails.
pub fn tell_regs<W: Write>(writer: &mut W, step: u32, shown: &Shown) -> Result<(), WriteFault>
    ensures { Puts result (W.contents writer.old) (W.contents writer.new) (regs_text step shown.now ++ ok_line) }
{
    let mut text = Text::new();
    add_regs(&mut text, step, shown);
    accept(writer, &mut text)
}

/// Words of RAM from an address on.
///
/// # Errors
///
/// `WriteFault` where the writer fails.
pub fn tell_words<W: Write>(writer: &mut W, first: u32, words: &[u32]) -> Result<(), WriteFault>
    requires { first + 4 * length words.now ≤ 4294967296 }
    ensures { Puts result (W.contents writer.old) (W.contents writer.new) (memory_text first words.now ++ ok_line) }
{
    let mut text = Text::new();
    add_memory(writer, &mut text, first, words)?;
    accept(writer, &mut text)
}

/// What was put out at the console.
///
/// # Errors
///
/// `WriteFault` where the writer fails.
pub fn tell_output<W: Write>(writer: &mut W, bytes: &[u8]) -> Result<(), WriteFault>
    ensures { Puts result (W.contents writer.old) (W.contents writer.new) (output_text bytes.now ++ ok_line) }
{
    let mut text = Text::new();
    add_output(writer, &mut text, bytes)?;
    accept(writer, &mut text)
}
