//! Examples that are computed, each a function that does nothing and whose contract has them.

ghost use Rattle.std.specs.Prelude.{◌≡◌, [], ◌∷◌, Some, None, slice_get};
ghost use Rattle.sv8_time.specs.declared.fault.TimeFault.TheVariants.{StepTooLarge, BadAddress, BadLevel, NothingThere};
ghost use Rattle.sv8_time.specs.Schedule.{poke_of, pokes_of_step, poke_after, request_after, event_count, without_poke, bytes_of_step, bytes_below, input_bytes, set_poke_fault, clear_poke_fault, set_poke_byte_fault, clear_poke_byte_fault, clear_input_fault, set_request_fault, clear_request_fault, requests_of_step, request_of};
ghost use Rattle.sv8_part_laws.specs.TimelineExamples.{nothing, word_and_byte, three_bytes, later_pokes, levels, arrivals};

/// Pokes of words and bytes (the numbers are hexadecimal).
///
/// - `bytes`: after the word 11223344 at 100 and the byte AA at 101, at step 5, the bytes from 100 on get 11, AA, 33, 44.
/// - `one_event`: that is one event; `more_events`: with pokes of the word at two later steps there are three.
/// - `byte_cleared`: once the byte at 101 is cleared, 11, 33 and 44 are left; `still_one`: still one event.
/// - `word_cleared`: the word can be cleared then, and nothing is left; `gone`: no event; `byte_gone` and
///   `word_gone`: nothing is there to clear.
pub fn worked_pokes()
    ensures bytes { word_and_byte.pokes ≡ poke_of 5 256 17 ∷ poke_of 5 257 170 ∷ poke_of 5 258 51 ∷ poke_of 5 259 68 ∷ [] }
    ensures one_event { event_count word_and_byte ≡ 1 }
    ensures more_events { event_count later_pokes ≡ 3 }
    ensures byte_cleared { three_bytes.pokes ≡ poke_of 5 256 17 ∷ poke_of 5 258 51 ∷ poke_of 5 259 68 ∷ [] }
    ensures still_one { event_count three_bytes ≡ 1 }
    ensures can_clear { clear_poke_fault 5 256 three_bytes ≡ None }
    ensures word_cleared { without_poke 5 256 three_bytes ≡ nothing }
    ensures gone { event_count (without_poke 5 256 three_bytes) ≡ 0 }
    ensures byte_gone { clear_poke_byte_fault 5 256 (without_poke 5 256 three_bytes) ≡ Some NothingThere }
    ensures word_gone { clear_poke_fault 5 256 (without_poke 5 256 three_bytes) ≡ Some NothingThere }
{}

/// The next step with an event of a kind. In `later_pokes` the byte at 101 is poked at steps 5 and 9, the one at 100
/// at 5, 7 and 9 (the addresses are hexadecimal).
///
/// - `first` to `third`: a byte's poke ends at the next poke of that byte, and not at one of another byte of its word.
/// - `last` and `elsewhere`: there may be none.
/// - `level` to `later_level`: the same of requests, and of one level alone.
pub fn worked_nexts()
    ensures first { poke_after 257 0 later_pokes.pokes ≡ Some 5 }
    ensures second { poke_after 256 5 later_pokes.pokes ≡ Some 7 }
    ensures third { poke_after 257 5 later_pokes.pokes ≡ Some 9 }
    ensures last { poke_after 257 9 later_pokes.pokes ≡ None }
    ensures elsewhere { poke_after 260 0 later_pokes.pokes ≡ None }
    ensures level { request_after 9 0 levels.requests ≡ Some 3 }
    ensures next_level { request_after 9 3 levels.requests ≡ Some 8 }
    ensures later_level { request_after 4 3 levels.requests ≡ None }
{}

/// What is read of the events of a step, and of all input bytes in the order of their steps.
///
/// - `byte_at_7`: at step 7 of `later_pokes` one byte is poked.
/// - `levels_at_3`: the levels of a step rise, in whichever order they were set.
/// - `bytes_at_2`, `bytes_at_3`: what comes in at a step, and nothing where no input is set.
/// - `below_7` to `all_below`: how many bytes the steps below one bring.
/// - `third` to `past`: bytes by number.
pub fn worked_reads()
    ensures byte_at_7 { pokes_of_step 7 later_pokes.pokes ≡ poke_of 7 256 1 ∷ [] }
    ensures levels_at_3 { requests_of_step 3 levels.requests ≡ request_of 3 4 ∷ request_of 3 9 ∷ [] }
    ensures bytes_at_2 { bytes_of_step 2 arrivals.inputs ≡ 97 ∷ 98 ∷ 99 ∷ [] }
    ensures bytes_at_3 { bytes_of_step 3 arrivals.inputs ≡ [] }
    ensures below_2 { bytes_below 2 arrivals.inputs ≡ 0 }
    ensures below_7 { bytes_below 7 arrivals.inputs ≡ 3 }
    ensures below_8 { bytes_below 8 arrivals.inputs ≡ 4 }
    ensures all_below { bytes_below 1000000 arrivals.inputs ≡ 7 }
    ensures third { slice_get (input_bytes arrivals.inputs) 2 ≡ Some 99 }
    ensures fourth { slice_get (input_bytes arrivals.inputs) 3 ≡ Some 45 }
    ensures past { slice_get (input_bytes arrivals.inputs) 7 ≡ None }
{}

/// Refusals, the first that holds, with a RAM of 00100000 bytes (the addresses are hexadecimal).
///
/// - `late`: a step above 1,000,000 comes before a bad address.
/// - `unaligned`, `past_word`, `past_byte`: an address that is no multiple of 4, and the first word and byte behind RAM.
/// - `last_word`, `last_byte`: the last word and byte of RAM are fine.
/// - `no_level`, `level_16`: levels are 1 to 15.
pub fn worked_refusals()
    ensures late { set_poke_fault 1000001 2 nothing ≡ Some StepTooLarge }
    ensures unaligned { set_poke_fault 1000000 2 nothing ≡ Some BadAddress }
    ensures past_word { set_poke_fault 0 1048576 nothing ≡ Some BadAddress }
    ensures last_word { set_poke_fault 0 1048572 nothing ≡ None }
    ensures past_byte { set_poke_byte_fault 0 1048576 nothing ≡ Some BadAddress }
    ensures last_byte { set_poke_byte_fault 0 1048575 nothing ≡ None }
    ensures no_input { clear_input_fault 0 nothing ≡ Some NothingThere }
    ensures no_level { set_request_fault 0 0 nothing ≡ Some BadLevel }
    ensures level_16 { set_request_fault 0 16 nothing ≡ Some BadLevel }
    ensures no_request { clear_request_fault 3 5 levels ≡ Some NothingThere }
{}
