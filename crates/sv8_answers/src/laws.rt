//! Small scripts, computed from the definitions: their orders, and the sessions of them.

ghost use Rattle.std.specs.Prelude.{◌≡◌, [], ◌∷◌, codes};
ghost use Rattle.sv8_time.specs.Schedule.{poke_of, input_of, request_of};
ghost use Rattle.sv8_workbench.specs.Kept.{empty, with_timeline};
ghost use Rattle.sv8_answers.specs.Script.{orders_of};
ghost use Rattle.sv8_commands.specs.Order.{edit, command, bad};
ghost use Rattle.sv8_answers.specs.Session.{Session};
ghost use Rattle.sv8_commands.specs.declared.command.Command.TheVariants.{Edit, Input, Timeline, Ask, Quit};
ghost use Rattle.sv8_commands.specs.declared.command.Query.TheVariants.{Listing, Regs};
ghost use Rattle.sv8_time.specs.declared.edit.TimelineEdit.TheVariants.{SetPoke, SetPokeByte, ClearPokeByte, ClearInput, SetRequest, ClearRequest};

/// The lines of a refused edit are no commands, a blank line is none, and nothing is read behind `quit`.
pub fn worked_session()
    ensures orders { orders_of (codes "edit 3 3 2\nnop\nquit\r\n \t\nfrob\nregs 1000001\nlist\nedit 1 0 0\nquit\nlist\n")
        ≡ edit 3 3 (codes "nop" ∷ codes "quit" ∷ []) ∷ bad ∷ command (Ask (Regs 1000001)) ∷ command (Ask Listing)
        ∷ command (Edit 1 0 0) ∷ command Quit ∷ [] }
    ensures answers { Session (empty 8 256)
        (edit 3 3 (codes "nop" ∷ codes "quit" ∷ []) ∷ bad ∷ command (Ask (Regs 1000001)) ∷ command (Ask Listing)
        ∷ command (Edit 1 0 0) ∷ command Quit ∷ [])
        (codes "refused 2 NoSuchLine\nrefused 18 BadCommand\nrefused 13 StepTooLarge\nok\nok\nok\n") (empty 8 256) }
{}

/// A word is poked as four bytes, of which one is cleared and another is set; a byte has two digits; each refused command
/// leaves the events.
pub fn worked_events()
    ensures orders { orders_of (codes "poke 5 100 11223344\nunpokeb 5 101\nunpokeb 5 101\npokeb 5 102 A\ninput 3 4aFf\ninput 3 4aF\nirq 1 15\nunirq 1 14\nirq 0 16\npokeb 0 100000 1\nuninput 1000001\n")
        ≡ command (Timeline (SetPoke 5 256 287454020)) ∷ command (Timeline (ClearPokeByte 5 257)) ∷ command (Timeline (ClearPokeByte 5 257))
        ∷ command (Timeline (SetPokeByte 5 258 10)) ∷ command (Input 3 (74 ∷ 255 ∷ [])) ∷ bad ∷ command (Timeline (SetRequest 1 15))
        ∷ command (Timeline (ClearRequest 1 14)) ∷ command (Timeline (SetRequest 0 16)) ∷ command (Timeline (SetPokeByte 0 1048576 1))
        ∷ command (Timeline (ClearInput 1000001)) ∷ [] }
    ensures answers { Session (empty 8 256)
        (command (Timeline (SetPoke 5 256 287454020)) ∷ command (Timeline (ClearPokeByte 5 257)) ∷ command (Timeline (ClearPokeByte 5 257))
        ∷ command (Timeline (SetPokeByte 5 258 10)) ∷ command (Input 3 (74 ∷ 255 ∷ [])) ∷ bad ∷ command (Timeline (SetRequest 1 15))
        ∷ command (Timeline (ClearRequest 1 14)) ∷ command (Timeline (SetRequest 0 16)) ∷ command (Timeline (SetPokeByte 0 1048576 1))
        ∷ command (Timeline (ClearInput 1000001)) ∷ [])
        (codes "ok\nok\nrefused 16 NothingThere\nok\nok\nrefused 18 BadCommand\nok\nrefused 16 NothingThere\nrefused 15 BadLevel\nrefused 14 BadAddress\nrefused 13 StepTooLarge\n")
        (with_timeline (record {
          limit = 1048576;
          pokes = poke_of 5 256 17 ∷ poke_of 5 258 10 ∷ poke_of 5 259 68 ∷ [];
          inputs = input_of 3 (74 ∷ 255 ∷ []) ∷ [];
          requests = request_of 1 15 ∷ [];
        }) (empty 8 256)) }
{}
