//! A refusal as it is answered.

ghost use Rattle.std.specs.Prelude.{◌≡◌, ◌≤◌, length};
ghost use Rattle.sv8_commands.specs.Refusal.{bad_command};
ghost use Rattle.sv8_commands.specs.Put.{refusal_in};

/// A refusal as it is answered.
#[derive(Drop, Clone, Copy)]
pub struct Refusal {
    pub number: u32,
    pub name: &'static [u8],
    /// The line of the source that is at fault, if it is a line's fault.
    pub line: Option<u32>,
}

/// The refusal of a line that is no command.
pub fn bad_command() -> Refusal
    ensures value { refusal_in result ≡ bad_command }
    ensures short { length result.name.now ≤ 16 }
{
    Refusal {
        number: 18,
        name: b"BadCommand",
        line: None,
    }
}
