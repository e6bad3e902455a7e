//! Laws of the definitions in `specs/`. Each stands as the contract of a function that does nothing.

ghost use Rattle.std.specs.Prelude.{◌≡◌, [], ◌∷◌, true, false, Ok, Err};
ghost use Rattle.sv8_model.specs.declared.touch.Touch.TheVariants.{Read, Write, Expiry};
ghost use Rattle.sv8_model.specs.Action.{result_of, after, touches};
ghost use Rattle.sv8_model.specs.Levels.{asked, cleared, levels_word};
ghost use Rattle.sv8_phys.specs.Differences.{DifferencesAreLeast};
ghost use Rattle.sv8_phys.specs.Devices.{tick, load, store, no_answer};
ghost use Rattle.sv8_phys.specs.Laws.{BitsArePending, PiecesAreTheOutput};
ghost use Rattle.sv8_part_laws.specs.MemoryExamples.{small, timer};

use sv8_model::Size;

/// The word of pending levels has bit l set exactly where level l is pending.
pub fn bits_are_pending()
    ensures { BitsArePending }
{}

/// The pieces of the output, one after the other up to the first that is not there, are the output, and there is such a first.
pub fn pieces_are_the_output()
    ensures { PiecesAreTheOutput }
{}

/// The timer and the levels, on numbers worked out by hand.
///
/// - `counts`: a count of 2 falls to 1, and touches nothing.
/// - `expires`: a count of 1 starts again from the reload, 3.
/// - `requests`: level 10 is then pending, whose bit is 0x400.
/// - `noted`: and the expiry is the one touch.
/// - `rests`: a count of 0 stays.
/// - `asks`: of levels 1, 3 and 15 pending, those of 0x8008 are 3 and 15.
/// - `clears`: with levels 15 and 2 cleared, 1 and 3 are left.
#[tactic(auto, unfolding(crate::proofs::OnLiterals::phys_on_literals))]
pub fn worked_steps()
    ensures counts { result_of (tick (timer 2 3)) small ≡ timer 1 3 }
    ensures expires { result_of (tick (timer 1 3)) small ≡ timer 3 3 }
    ensures requests { levels_word (after (tick (timer 1 3)) small).pending ≡ 0x400 }
    ensures noted { touches (tick (timer 1 3)) small ≡ Expiry ∷ [] }
    ensures rests { result_of (tick (timer 0 3)) small ≡ timer 0 3 }
    ensures asks { asked 0x8008 (false ∷ true ∷ false ∷ true ∷ false ∷ false ∷ false ∷ false ∷ false ∷ false ∷ false ∷ false ∷ false ∷ false ∷ false ∷ true ∷ []) ≡ 0x8008 }
    ensures clears { levels_word (cleared 0x8004 (false ∷ true ∷ false ∷ true ∷ false ∷ false ∷ false ∷ false ∷ false ∷ false ∷ false ∷ false ∷ false ∷ false ∷ false ∷ true ∷ [])) ≡ 0xa }
{}

/// Accesses to a RAM of eight bytes, 11 22 33 44 55 66 77 88, on numbers worked out by hand.
///
/// - `word`, `half`, `byte`, `double`: what is loaded, the most significant byte first.
/// - `beyond`: nothing serves the address behind RAM.
/// - `stored`: a byte stored leaves the rest of its word.
/// - `part`: and its word counts as read.
/// - `whole`: a doubleword is two words stored whole.
/// - `console`: of a word stored to the console its low byte is put out.
#[tactic(auto, unfolding(crate::proofs::OnLiterals::phys_on_literals))]
pub fn worked_accesses()
    ensures word { result_of (load 8 (timer 0 0) Size.Word 4) small ≡ Ok 0x55667788 }
    ensures half { result_of (load 8 (timer 0 0) Size.Half 2) small ≡ Ok 0x3344 }
    ensures byte { result_of (load 8 (timer 0 0) Size.Byte 1) small ≡ Ok 0x22 }
    ensures double { result_of (load 8 (timer 0 0) Size.Double 0) small ≡ Ok 0x1122334455667788 }
    ensures beyond { result_of (load 8 (timer 0 0) Size.Word 8) small ≡ Err no_answer }
    ensures stored { (after (store 8 (timer 0 0) Size.Byte 5 0xabcd) small).ram ≡ 0x11 ∷ 0x22 ∷ 0x33 ∷ 0x44 ∷ 0x55 ∷ 0xcd ∷ 0x77 ∷ 0x88 ∷ [] }
    ensures part { touches (store 8 (timer 0 0) Size.Byte 5 0xabcd) small ≡ Read 4 ∷ [] }
    ensures whole { touches (store 8 (timer 0 0) Size.Double 0 1) small ≡ Write 0 ∷ Write 4 ∷ [] }
    ensures console { (after (store 8 (timer 0 0) Size.Word 0x80000008 0xffffff48) small).output ≡ 0x48 ∷ [] }
{}

/// What `Phys::next_difference` finds is the least word, not below the address, in which two RAMs differ; where it finds nothing,
/// all words from the address on are the same.
pub fn differences_are_least()
    ensures { DifferencesAreLeast }
{}
