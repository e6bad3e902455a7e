//! What is read of a machine, and what its keeper does with its state.

ghost use Rattle.std.specs.Prelude.{◌≡◌, ◌<◌, ◌≤◌, ◌%◌, ◌/◌, ◌^◌, length, false, option_map, IfOk, IfSome, MatchBool, slice_index_or, slice_set, OnOk, OnErr};
ghost use Rattle.sv8_model.specs.Levels.{levels_word};
ghost use Rattle.sv8_regs.specs.Current.{other_windows};
ghost use Rattle.sv8_model.specs.Outside.{word_of};
ghost use Rattle.sv8_time.specs.Schedule.{bytes_below};
ghost use Rattle.sv8_phys.specs.Memory.{ram_size, page_of, with_page};
ghost use Rattle.sv8_phys.specs.Contents.{AreContents};
ghost use Rattle.sv8_phys.specs.Differences.{next_difference};
ghost use Rattle.sv8_phys.specs.Ends.{IsEnd};
ghost use Rattle.sv8_phys.specs.Pieces.{piece_of};
ghost use Rattle.sv8_mmu.specs.Place.{place_of};
ghost use Rattle.sv8_cpu.specs.Sameness.{IsSameProcessor};
ghost use Rattle.sv8_cpu.specs.State.{waiting};
ghost use Rattle.sv8_cpu.specs.Trapping.{is_at_trap, is_at_trap_of, trap_type_of};

use crate::machine::Machine;
use crate::parts::Parts;
use std::alloc::{AllocError, Global};
use sv8_mmu::{Mmu, Place, place_of};
use sv8_model::Level;
use sv8_phys::{OutputPlace, Page, Timer};
use sv8_regs::Regs;
use sv8_time::Timeline;

impl<const NW: usize, const PAGES: usize> Machine<NW, PAGES> {
    /// The registers of the integer unit (chapter 4).
    pub fn registers(&self) -> &Regs<NW>
        ensures { result.now ≡ self.now.processor.registers }
    {
        self.parts.processor.registers()
    }

    /// PC, the address of the instruction that the next step carries out (section 4.2).
    pub fn pc(&self) -> u32
        ensures value { result ≡ self.now.processor.pc }
        ensures aligned { result % 4 ≡ 0 }
    {
        self.parts.processor.pc()
    }

    /// nPC, the address of the instruction that follows the one at PC (section 4.2).
    pub fn npc(&self) -> u32
        ensures value { result ≡ self.now.processor.npc }
        ensures aligned { result % 4 ≡ 0 }
    {
        self.parts.processor.npc()
    }

    /// Whether the next step leaves the instruction at PC out, as a control transfer with a = 1 asked for (section 5.1.2).
    pub fn annul(&self) -> bool
        ensures { result ≡ self.now.processor.annul }
    {
        self.parts.processor.annul()
    }

    /// Whether the machine runs; if not, it is in error mode and stays so (chapter 7).
    pub fn is_running(&self) -> bool
        ensures { result ≡ self.now.processor.running }
    {
        self.parts.processor.is_running()
    }

    /// Whether a trap may have led here: the machine is in error mode, or PC is the address in TBR (section 7.2). Where it is
    /// neither after a step, the step took no trap (law `traps_lead_there`).
    #[inline(always)]
    pub fn is_at_trap(&self) -> bool
        ensures { result ≡ is_at_trap self.now.processor }
    {
        let processor = &self.parts.processor;
        !processor.is_running() || processor.pc() == processor.registers().tbr()
    }

    /// The same of a trap of one type: the machine is in error mode, or PC is the address in TBR, whose tt is the type. Where it
    /// is neither after a step, the step took no trap of the type (law `trap_types_lead_there`).
    #[inline(always)]
    pub fn is_at_trap_of(&self, trap_type: u8) -> bool
        ensures { result ≡ is_at_trap_of trap_type self.now.processor }
    {
        let processor = &self.parts.processor;
        !processor.is_running()
            || (processor.pc() == processor.registers().tbr() && self.trap_type() == trap_type)
    }

    /// The type of trap in the trap base register: tt of TBR (section 4.4).
    #[inline(always)]
    pub fn trap_type(&self) -> u8
        ensures value { result ≡ trap_type_of self.now.processor.registers.tbr }
    {
        (self.parts.processor.registers().tbr() / 0x10 % 0x100) as u8
    }

    /// The registers of the memory management unit (Appendix H).
    pub fn mmu(&self) -> Mmu
        ensures { result ≡ self.now.mmu }
    {
        self.parts.memory.mmu()
    }

    /// Where a virtual address lies by the registers of the memory management unit and the tables in RAM as they stand (Appendix
    /// H): the address itself where addresses are not translated, else what the entry of its page maps it to. `None` where the
    /// walk from the context table on meets an entry that is invalid (ET 0), reserved (ET 3), a pointer in a table of level 3, or
    /// not in RAM. It is no access: nothing is checked, marked or recorded, and whether RAM or a device is there is not asked.
    pub fn place(&self, va: u32) -> Option<Place>
        ensures value { result ≡ place_of (ram_size PAGES) self.now.mmu self.now.memory.ram va }
        ensures offset { IfSome result (λ p. p.pa % 4096 ≡ va % 4096) }
        ensures small { IfSome result (λ p. p.pa < 2 ^ 36) }
    {
        place_of(&self.mmu(), self.parts.memory.phys(), va)
    }

    /// Whether another machine has the same processor: the same mode (it runs, or it is in error mode), PC, nPC, annul flag,
    /// registers of all windows and globals, PSR, WIM, TBR and Y, and the same five registers of the memory management unit. RAM
    /// and the devices are not compared.
    pub fn has_same_processor(&self, other: &Machine<NW, PAGES>) -> bool
        ensures { MatchBool result (IsSameProcessor self.now other.now) (IsSameProcessor self.now other.now → ⊥) }
    {
        self.mmu().is_same(&other.mmu()) && self.parts.processor.is_same(&other.parts.processor)
    }

    /// The same of machines whose registers outside the current window are known to be the same: these are not compared.
    /// A step that leaves CWP leaves them (law `other_windows_stay`).
    #[inline(always)]
    pub fn has_same_processor_in_window(&self, other: &Machine<NW, PAGES>) -> bool
        ensures { MatchBool result
            (other_windows NW self.now.processor.registers ≡ other_windows NW other.now.processor.registers → IsSameProcessor self.now other.now)
            (IsSameProcessor self.now other.now → ⊥) }
    {
        self.mmu().is_same(&other.mmu())
            && self
                .parts
                .processor
                .is_same_in_window(&other.parts.processor)
    }

    /// The timer.
    pub fn timer(&self) -> Timer
        ensures { result ≡ self.now.memory.timer }
    {
        self.parts.memory.phys().timer()
    }

    /// The pending interrupt levels, bit l for level l, from 1 to 15.
    pub fn pending(&self) -> u32
        ensures { result ≡ levels_word self.now.memory.pending }
    {
        self.parts.memory.phys().pending()
    }

    /// How many bytes of the console's input have been taken.
    pub fn taken(&self) -> u32
        ensures { result ≡ self.now.memory.taken }
    {
        self.parts.memory.phys().taken()
    }

    /// How many bytes wait at the console in the state at step n: of those that came in at the steps below n, all that have
    /// not been taken.
    pub fn waiting_count(&self, n: u32, timeline: &Timeline) -> u32
        requires { self.now.memory.taken ≤ bytes_below n timeline.now.inputs }
        ensures { result ≡ length (waiting timeline.now n self.now) }
    {
        timeline.delivered(n) - self.taken()
    }

    /// The bytes put out at the console so far.
    ///
    /// # Errors
    ///
    /// `AllocError` where memory for them cannot be had.
    pub fn output(&self, alloc: Global) -> Result<Vec<u8>, AllocError>
        ensures { IfOk result (λ v. v.items ≡ self.now.memory.output) }
    {
        self.parts.memory.phys().output(alloc)
    }

    /// The place in the output of the next byte that is put out at the console.
    pub fn output_end(&self) -> OutputPlace
        ensures { IsEnd self.now.memory.output result }
    {
        self.parts.memory.phys().output_end()
    }

    /// The bytes put out at the console so far, read where they lie: those from 512 * `index` on, at most 512 of them. `None`
    /// where there are none. The pieces from index 0 up to the first `None` are the whole output.
    pub fn output_piece(&self, index: usize) -> Option<&[u8]>
        ensures { option_map (λ s. s.now) result ≡ piece_of self.now.memory.output index }
    {
        self.parts.memory.phys().output_piece(index)
    }

    /// The word of RAM at a physical address, the byte at the lowest address being its most significant one.
    pub fn word(&self, at: u32) -> u32
        requires aligned { at % 4 ≡ 0 }
        requires within { at < ram_size PAGES }
        ensures { result ≡ word_of self.now.memory.ram (at / 4) }
    {
        self.parts.memory.phys().word(at)
    }

    /// The physical address of the first word of RAM, from the word at an address on, that is another one in a second machine.
    /// `None` where there is no such word, and where the address is behind RAM. A caller that goes on from the word behind each
    /// one found gets all that differ; `word` reads both.
    pub fn next_difference(&self, other: &Machine<NW, PAGES>, from: u32) -> Option<u32>
        requires { from % 4 ≡ 0 }
        ensures value { result ≡ next_difference (ram_size PAGES) self.now.memory.ram other.now.memory.ram from }
        ensures word { IfSome result (λ at. (at % 4 ≡ 0) × (at < ram_size PAGES)) }
    {
        self.parts
            .memory
            .phys()
            .next_difference(other.parts.memory.phys(), from)
    }

    /// The byte of RAM at a physical address.
    pub fn byte(&self, at: u32) -> u8
        requires { at < ram_size PAGES }
        ensures { result ≡ slice_index_or self.now.memory.ram at 0 }
    {
        self.parts.memory.phys().byte(at)
    }

    /// The size of RAM in bytes. Its clauses also say what every machine's memory is: RAM has that size, its bytes are below 256,
    /// and its levels are 1 to 15.
    pub fn ram_size(&self) -> u64
        ensures value { result ≡ ram_size PAGES }
        ensures contents { AreContents PAGES self.now.memory }
    {
        self.parts.memory.phys().ram_size()
    }

    /// Whether an interrupt level is pending (section 7.3).
    pub fn is_pending(&self, level: Level) -> bool
        ensures { result ≡ slice_index_or self.now.memory.pending level false }
    {
        self.parts.memory.phys().is_pending(level)
    }

    /// Makes an interrupt level pending, or no longer pending; nothing else changes.
    pub fn set_pending(&mut self, level: Level, pending: bool)
        ensures { self.new ≡ record self.old { memory = record self.old.memory { pending = slice_set self.old.memory.pending level pending } } }
    {
        self.parts.memory.set_pending(level, pending);
    }

    /// The page of RAM with an address, which is shared.
    ///
    /// # Errors
    ///
    /// `AllocError` where the page is shared as often as can be counted.
    pub fn page(&self, pa: u32) -> Result<Page, AllocError>
        requires { pa < ram_size PAGES }
        ensures { IfOk result (λ p. p ≡ page_of self.now.memory.ram (pa / 4096)) }
    {
        self.parts.memory.phys().page(pa)
    }

    /// Puts a page in the place of the page of RAM with an address. Nothing else changes.
    ///
    /// # Errors
    ///
    /// `AllocError` where pages are shared and memory for their handles cannot be had.
    pub fn put_page(&mut self, pa: u32, page: Page) -> Result<(), AllocError>
        requires { pa < ram_size PAGES }
        ensures ok { OnOk result (self.new ≡ record self.old { memory = record self.old.memory { ram = with_page self.old.memory.ram (pa / 4096) page } }) }
        ensures err { OnErr result (self.new ≡ self.old) }
    {
        self.parts.memory.put_page(pa, page)?;
        Ok(())
    }

    /// The same machine once more. RAM and the bytes put out are shared until they are written.
    ///
    /// # Errors
    ///
    /// `AllocError` where memory for it cannot be had.
    pub fn snapshot(&self, alloc: Global) -> Result<Self, AllocError>
        ensures { IfOk result (λ m. m ≡ self.now) }
    {
        let memory = self.parts.memory.snapshot(alloc)?;
        let parts = Parts {
            processor: self.parts.processor.copy(),
            memory,
        };
        let parts = Box::new(alloc, parts)?;
        Ok(Machine { parts })
    }
}
