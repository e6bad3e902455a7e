//! Laws of the definitions, each a function that does nothing and whose contract is the law.

ghost use Rattle.std.specs.Prelude.{◌≡◌, true};
ghost use Rattle.sv8_regs.specs.Control.{packed_psr};
ghost use Rattle.sv8_regs.specs.Ring.{read};
ghost use Rattle.sv8_model.specs.Outside.{word_of};
ghost use Rattle.sv8_step_laws.specs.Examples.{counting, spinning, moving, saving, setting, calling, tagging, returning, run};
ghost use Rattle.sv8_step_laws.specs.RecordedLaws.{AccessFrames, StepFrames, RunsAgree, TimelinesServe};
ghost use Rattle.sv8_step_laws.specs.Frames.{EventsCome, StepsAreWhole, RunsAreWhole, SetsFrame, RunsFrame, CellsStay, BytesFrame, WaitingFrames, LevelsFrame, RequestedLevelsAgree};
ghost use Rattle.sv8_cpu.specs.Touching.{SparedBytesStay, AccessesTouch, StepsTouch, AccessesAreData, FetchesTouch, AnnulledStepsPass};
ghost use Rattle.sv8_cpu.specs.Trapping.{TrapsLeadThere, TrapTypesLeadThere};
ghost use Rattle.sv8_step_laws.specs.Console.{ConsolesGrow};
ghost use Rattle.sv8_step_laws.specs.Windows.{OtherWindowsStay};

/// The steps of small programs, computed from the definition of a step.
///
/// - `branch`: after `mov 5, %g1`, `add %g1, 1, %g2` and `ba 0` PC is 12, that of the slot.
/// - `target`: nPC is then 0.
/// - `sum`: and register 2 is 6.
/// - `annulled`: after `ba,a 0` at address 0 the slot at address 4 is annulled.
/// - `skipped`: the slot is passed over, and PC is 0 again.
pub fn worked_steps()
    ensures branch { (run 2 16 counting 3).inner.processor.pc ≡ 12 }
    ensures target { (run 2 16 counting 3).inner.processor.npc ≡ 0 }
    ensures sum { read 2 (run 2 16 counting 3).inner.processor.registers 2 ≡ 6 }
    ensures annulled { (run 2 8 spinning 1).inner.processor.annul ≡ true }
    ensures skipped { (run 2 8 spinning 2).inner.processor.pc ≡ 0 }
{}

/// Loads and stores of a small program, computed from the definition of a step (the numbers are hexadecimal).
///
/// - `word`, `signed_byte`: `ld` of the word 80010203 and `ldsb` of its first byte.
/// - `half`: `sth` of that word's low half over 11223344.
/// - `swapped`, `swap_stored`: `swap` with what stands there then.
/// - `tested`, `set`: `ldstub` of the first byte.
pub fn worked_memory()
    ensures word { read 2 (run 2 32 moving 1).inner.processor.registers 1 ≡ 0x8001_0203 }
    ensures signed_byte { read 2 (run 2 32 moving 2).inner.processor.registers 2 ≡ 0xffff_ff80 }
    ensures half { word_of (run 2 32 moving 3).outside.ram 7 ≡ 0x0203_3344 }
    ensures swapped { read 2 (run 2 32 moving 4).inner.processor.registers 2 ≡ 0x0203_3344 }
    ensures swap_stored { word_of (run 2 32 moving 4).outside.ram 7 ≡ 0xffff_ff80 }
    ensures tested { read 2 (run 2 32 moving 5).inner.processor.registers 3 ≡ 0x80 }
    ensures set { word_of (run 2 32 moving 5).outside.ram 6 ≡ 0xff01_0203 }
{}

/// SAVE and RESTORE of a small program on eight windows, computed from the definition of a step.
///
/// - `window`: after `save %o0, 1, %l0` in window 0 the current window is 7.
/// - `sum`: register 16 of it is the sum of the old window's register 8, which is 7, and 1.
/// - `passed`: and register 24 is that register 8.
/// - `back`, `result`: after `restore %l0, 1, %o1` it is 0 again, and register 9 is 9.
pub fn worked_windows()
    ensures window { (run 8 16 saving 2).inner.processor.registers.cwp ≡ 7 }
    ensures sum { read 8 (run 8 16 saving 2).inner.processor.registers 16 ≡ 8 }
    ensures passed { read 8 (run 8 16 saving 2).inner.processor.registers 24 ≡ 7 }
    ensures back { (run 8 16 saving 3).inner.processor.registers.cwp ≡ 0 }
    ensures result { read 8 (run 8 16 saving 3).inner.processor.registers 9 ≡ 9 }
{}

/// State registers of a small program on two windows, computed from the definition of a step.
///
/// - `y`: `wr` of 5 to Y, which `rd` gives.
/// - `mask`: WIM has a bit for each window alone, so of FF (hexadecimal) it keeps 3.
pub fn worked_state_registers()
    ensures y { read 2 (run 2 16 setting 2).inner.processor.registers 1 ≡ 5 }
    ensures mask { read 2 (run 2 16 setting 4).inner.processor.registers 2 ≡ 3 }
{}

/// A call and a jump of a small program, computed from the definition of a step.
///
/// - `target`, `link`: after `call 8` at address 0 nPC is 8, and register 15 is 0.
/// - `jumped`, `jump_link`: after `jmpl %o7, %g2` at address 8 nPC is 0, and register 2 is 8.
pub fn worked_transfers()
    ensures target { (run 2 16 calling 1).inner.processor.npc ≡ 8 }
    ensures link { read 2 (run 2 16 calling 1).inner.processor.registers 15 ≡ 0 }
    ensures jumped { (run 2 16 calling 3).inner.processor.npc ≡ 0 }
    ensures jump_link { read 2 (run 2 16 calling 3).inner.processor.registers 2 ≡ 8 }
{}

/// Traps of small programs on eight windows, computed from the definition of a step (the numbers are hexadecimal).
///
/// - `tag_handler`: after `wr %g0, 0xa0, %psr`, `mov 2, %g1` and `taddcctv %g1, 4, %g2` the handler of tag_overflow at A0 is next.
/// - `tag_state`: the PSR is C7: supervisor mode with PS = 1, traps off, window 7.
/// - `tag_pc` and `tag_npc`: locals 1 and 2 of that window are 8 and C.
/// - `returned`: after `rett 0x20` just after reset nPC is 20.
/// - `user_state`: the PSR is 21: user mode, traps on, window 1.
/// - `trap_handler`: the handler of `ta 0` behind it is at 800.
/// - `trap_state`: and the PSR is 80 again, in window 0.
pub fn worked_traps()
    ensures tag_handler { (run 8 12 tagging 3).inner.processor.pc ≡ 0xa0 }
    ensures tag_state { packed_psr (run 8 12 tagging 3).inner.processor.registers.psr (run 8 12 tagging 3).inner.processor.registers.cwp ≡ 0xc7 }
    ensures tag_pc { read 8 (run 8 12 tagging 3).inner.processor.registers 17 ≡ 8 }
    ensures tag_npc { read 8 (run 8 12 tagging 3).inner.processor.registers 18 ≡ 0xc }
    ensures returned { (run 8 8 returning 1).inner.processor.npc ≡ 0x20 }
    ensures user_state { packed_psr (run 8 8 returning 1).inner.processor.registers.psr (run 8 8 returning 1).inner.processor.registers.cwp ≡ 0x21 }
    ensures trap_handler { (run 8 8 returning 2).inner.processor.pc ≡ 0x800 }
    ensures trap_state { packed_psr (run 8 8 returning 2).inner.processor.registers.psr (run 8 8 returning 2).inner.processor.registers.cwp ≡ 0x80 }
{}

/// An access to memory that reads no cell of a set (bytes of RAM, waiting bytes, pending levels): in two outsides that differ in these
/// cells alone it is answered alike and touches the same, and it leaves them alike but for those of the cells that it does not write.
pub fn access_frames()
    ensures { AccessFrames }
{}

/// The machine obeys the frame law of `sv8_history`, for every number of windows and pages: what its footprint does not name, a step with
/// its event neither depends on nor changes.
///
/// So the laws of that theory hold of the machine's runs, from a state that is sound (`docs/HISTORY.md`).
pub fn steps_frame()
    ensures { StepFrames }
{}

/// A run as the theory of recorded runs sees it is the run of the machine: it has the same state before each step, and each step the
/// footprint of what it touches.
pub fn runs_agree()
    ensures { RunsAgree }
{}

/// A timeline of the size of RAM gives each step an event that the theory of recorded runs takes.
pub fn timelines_serve()
    ensures { TimelinesServe }
{}

/// The events of a step come before the machine acts: each poked byte is written to RAM, each requested level becomes pending, and the
/// bytes that come in wait at the console behind those that waited.
///
/// It holds under a timeline, in a state that took no more bytes than have come in.
#[tactic(auto, using(crate::proofs::WholeSteps::events_come))]
pub fn events_come()
    ensures { EventsCome }
{}

/// A step of the machine is a step of the whole state, in which the bytes that wait at the console stand in the place of the number of
/// those taken: it leads to the same state and touches the same, and it takes no more bytes than have come in.
pub fn steps_are_whole()
    ensures { StepsAreWhole }
{}

/// The state before each step of a run from reset is the one that so many steps of the whole state lead to, and each step touches the
/// same there.
#[tactic(auto, using(crate::proofs::WholeSteps::runs_are_whole))]
pub fn runs_are_whole()
    ensures { RunsAreWhole }
{}

/// THE FRAME LAW of one step. Two states differ at most in a set of cells (bytes of RAM, the waiting bytes, pending levels), and so do
/// their events. A step that reads none of these cells, but for those that both events set alike, touches the same in both. The states
/// behind it differ at most in those of the cells that the step did not write and that the events did not set alike.
pub fn sets_frame()
    ensures { SetsFrame }
{}

/// THE FRAME LAW of any number of steps up to the first that reads a cell of its set: with a set for each step, as `sets_frame` leads
/// from one to the next.
#[tactic(auto, using(crate::proofs::Frames::runs_frame))]
pub fn runs_frame()
    ensures { RunsFrame }
{}

/// A cell that a step neither reads nor writes holds behind it what its events left there.
#[tactic(auto, using(crate::proofs::Frames::cells_stay))]
pub fn cells_stay()
    ensures { CellsStay }
{}

/// The frame law for bytes of RAM: two runs that differ in these bytes alone, and in pokes of them, go on so for any number of steps
/// that read none of them, but for bytes that both events poke alike.
#[tactic(auto, using(crate::proofs::Frames::bytes_frame))]
pub fn bytes_frame()
    ensures { BytesFrame }
{}

/// The frame law for the console's input: two runs that differ in the waiting bytes alone, and in the bytes that come in, go on so for
/// any number of steps that neither take nor count them.
#[tactic(auto, using(crate::proofs::Frames::waiting_frames))]
pub fn waiting_frames()
    ensures { WaitingFrames }
{}

/// The frame law for an interrupt level: two runs that differ in the condition of a level alone, and in requests of it, go on so for
/// any number of steps that do not read it.
#[tactic(auto, using(crate::proofs::Frames::levels_frame))]
pub fn levels_frame()
    ensures { LevelsFrame }
{}

/// A level that both events request is pending in both states behind them. So two states that differ in that level alone are the same
/// behind the step, whatever it reads.
pub fn requested_levels_agree()
    ensures { RequestedLevelsAgree }
{}

/// A byte of RAM whose word is no data of a step, and which no event of the step pokes, holds after the step what it held before. So
/// does one whose word the step neither reads nor writes.
pub fn spared_bytes_stay()
    ensures { SparedBytesStay }
{}

/// What is seen of an access in RAM is touched: each byte lies in a word that the access reads or writes.
///
/// It holds of an access whose address is a multiple of its size, which that of every instruction is, where RAM lies below the devices.
#[tactic(auto, using(crate::proofs::Seen::accesses_touch))]
pub fn accesses_touch()
    ensures { AccessesTouch }
{}

/// What is seen of a step in RAM is touched: each byte that its access loads or stores, and the first one of the instruction that it
/// fetches, lie in words that the step reads or writes.
#[tactic(auto, using(crate::proofs::Seen::steps_touch))]
pub fn steps_touch()
    ensures { StepsTouch }
{}

/// What is seen of the access of a step in RAM is its data: each byte that it loads or stores lies in a word that is (`data_touches` of
/// `sv8_model`).
#[tactic(auto, using(crate::proofs::Data::accesses_are_data))]
pub fn accesses_are_data()
    ensures { AccessesAreData }
{}

/// A step that carries out the instruction at PC, or traps in it, touches the word at PC, where no address is translated and PC is in
/// RAM.
#[tactic(auto, using(crate::proofs::Fetched::fetches_touch))]
pub fn fetches_touch()
    ensures { FetchesTouch }
{}

/// A step that has an annulled slot in front of it takes an interrupt, or it passes over the slot, and nothing is seen of it.
#[tactic(auto, using(crate::proofs::Fetched::annulled_steps_pass))]
pub fn annulled_steps_pass()
    ensures { AnnulledStepsPass }
{}

/// A trap, or an interrupt, leads into error mode, or to the address in TBR (section 7.2). So no trap is seen of a step that leads
/// to neither, and none of a step of a machine that is in error mode before it.
#[tactic(auto, using(crate::proofs::Trapping::traps_lead_there))]
pub fn traps_lead_there()
    ensures { TrapsLeadThere }
{}

/// A trap, or an interrupt, of a type leads into error mode, or to the address in TBR, whose tt is then that type (section 7.2). So
/// no trap of the type is seen of a step that leads to neither.
#[tactic(auto, using(crate::proofs::Trapping::trap_types_lead_there))]
pub fn trap_types_lead_there()
    ensures { TrapTypesLeadThere }
{}

/// After a step no fewer bytes are taken from the console, and no fewer are put out.
#[tactic(auto, using(crate::proofs::Console::consoles_grow))]
pub fn consoles_grow()
    ensures { ConsolesGrow }
{}

/// A step that leaves CWP writes no register outside the current window: the outs, locals and ins of that window and the globals are
/// all that it may write.
#[tactic(auto, using(crate::proofs::Windows::other_windows_stay))]
pub fn other_windows_stay()
    ensures { OtherWindowsStay }
{}
