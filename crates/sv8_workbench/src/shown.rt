//! The state of the machine as it is shown.

ghost use Rattle.std.specs.Prelude.{◌≡◌, ◌<◌, ◌≤◌};
ghost use Rattle.sv8_time.specs.Schedule.{bytes_below};
ghost use Rattle.sv8_workbench.specs.Shown.{shown_registers, shown_state};

use sv8_cpu::{Machine, Mmu};
use sv8_phys::Timer;
use sv8_regs::Regs;
use sv8_time::Timeline;

/// The machine at a step, as a query shows it: each register of chapter 4 as a word, and the devices.
#[derive(Drop, Clone, Copy)]
pub struct Shown {
    /// Whether the machine runs; if not, it is in error mode (chapter 7).
    pub running: bool,
    /// PC, the address of the instruction that the next step carries out (section 4.2).
    pub pc: u32,
    /// nPC, the address of the instruction that follows the one at PC (section 4.2).
    pub npc: u32,
    /// Whether the next step leaves the instruction at PC out (section 5.1.2).
    pub annul: bool,
    /// The Processor State Register, all of its fields in one word (section 4.2).
    pub psr: u32,
    /// The Window Invalid Mask, bit w for window w (section 4.2).
    pub wim: u32,
    /// The Trap Base Register (section 4.2).
    pub tbr: u32,
    /// The Y register (section 4.2).
    pub y: u32,
    /// r[0] to r[31] of the current window (section 4.1).
    pub registers: [u32; 32],
    /// The registers of the memory management unit (Appendix H).
    pub mmu: Mmu,
    pub timer: Timer,
    /// The pending interrupt levels, bit l for level l, from 1 to 15.
    pub pending: u32,
    /// How many bytes wait at the console.
    pub waiting: u32,
}

/// The registers of the current window.
fn window_of<const NW: usize>(registers: &Regs<NW>) -> [u32; 32]
    requires { NW ≤ 32 }
    ensures { result ≡ shown_registers NW registers.now }
{
    let mut shown = [0; 32];
    for number in 0..32u32 {
        shown[number as usize] = registers.get(number);
    }
    shown
}

impl Shown {
    /// What is shown of a machine in its state at a step.
    #[tactic(auto, unfolding(crate::specs::Shown::shown_state))]
    pub fn of<const NW: usize, const PAGES: usize>(
        machine: &Machine<NW, PAGES>,
        step: u32,
        timeline: &Timeline,
    ) -> Shown
        requires few { NW ≤ 32 }
        requires delivered { machine.now.memory.taken ≤ bytes_below step timeline.now.inputs }
        ensures { result ≡ shown_state NW timeline.now step machine.now }
    {
        let registers = machine.registers();
        Shown {
            running: machine.is_running(),
            pc: machine.pc(),
            npc: machine.npc(),
            annul: machine.annul(),
            psr: registers.psr_word(),
            wim: registers.wim(),
            tbr: registers.tbr(),
            y: registers.y(),
            registers: window_of(registers),
            mmu: machine.mmu(),
            timer: machine.timer(),
            pending: machine.pending(),
            waiting: machine.waiting_count(step, timeline),
        }
    }
}
