//! A run over a state of its own, from what a reader gives to how the program ends.

ghost use Rattle.std.specs.Prelude.{IsTrue};
ghost use Rattle.sv8_program.specs.Ends.{Serves, is_run_end};

use crate::end::{End, end_of};
use std::alloc::Global;
use std::io::{Read, Write};
use std::mem;
use sv8_session::{Commands, run};

/// The pages of RAM of a program's machine: one mebibyte.
pub const PAGES: usize = 256;

/// The steps from one checkpoint of a program to the next.
pub const CHECKPOINT_STEPS: u32 = 256;

/// Runs a script on a new state. The state is left to the system, which takes its memory back at once when the program ends: to give it
/// back piece by piece takes a tenth to a third of the time of a recorded run.
pub fn serve<S: Commands, R: Read, W: Write>(alloc: Global, reader: &mut R, writer: &mut W) -> End
    requires { S.has_states }
    ensures run { IsTrue (is_run_end result) }
    ensures serves { Serves S.language S.new_kept result (R.remaining reader.old) (R.remaining reader.new)
        (W.contents writer.old) (W.contents writer.new) }
{
    let Ok(mut state) = S::new_state(alloc) else {
        return End::Memory;
    };
    let end = end_of(run::<S, R, W>(alloc, &mut state, reader, writer));
    mem::forget(state);
    end
}

/// Calls `serve` over the number of register windows that was chosen. The commands are a type with three parameters: windows, pages, and steps from
/// one checkpoint to the next. The list has the numbers of windows beside 8.
#[macro_export]
macro_rules! serve_with {
    ($commands:ident, $windows:expr, $alloc:expr, $reader:expr, $writer:expr, [$($count:literal)*]) => {
        match $windows {
            $($count => $crate::serve::<$commands<$count, { $crate::PAGES }, { $crate::CHECKPOINT_STEPS }>, _, _>($alloc, $reader, $writer),)*
            _ => $crate::serve::<$commands<8, { $crate::PAGES }, { $crate::CHECKPOINT_STEPS }>, _, _>($alloc, $reader, $writer),
        }
    };
}
