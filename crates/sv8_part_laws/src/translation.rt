//! Examples of the definitions, computed: each function does nothing, and its contract is the examples.

ghost use Rattle.std.specs.Prelude.{◌≡◌, Some, None, [], ◌∷◌};
ghost use Rattle.sv8_model.specs.declared.touch.Touch.TheVariants.{Read, Write};
ghost use Rattle.sv8_mmu.specs.declared.walk.Walked.TheVariants as walked;
ghost use Rattle.sv8_mmu.specs.Walk.{walk};
ghost use Rattle.sv8_mmu.specs.Translation.{physical_address, translate};
ghost use Rattle.sv8_mmu.specs.Probe.{probe};
ghost use Rattle.sv8_mmu.specs.Registers.{registers_at_reset, register_at, after_read, after_write, status_of, recorded};
ghost use Rattle.sv8_part_laws.specs.PlaceLaws.{TranslationsLeadToPlaces};
ghost use Rattle.sv8_part_laws.specs.TranslationExamples.{in_context, gives, touched, leaves, fetch_fault};

use sv8_mmu::{AccessType, FaultType, Reach, TableLevel, Translated};

/// Walks through small tables (the numbers are hexadecimal), to a page or to a fault of type 1 or 4.
///
/// - `page_0` to `page_3`: the page of context 3, and pages at levels 1, 2 and 3, each with the address of its entry.
/// - `reads` and `reads_one`: the entries that the last of these reads, and the first.
/// - `invalid_0` to `invalid_3`: an invalid entry is a fault of type 1 at its level.
/// - `reserved_0` to `reserved_3`: a reserved one is a fault of type 4.
/// - `pointer`: so is a pointer at level 3.
/// - `outside_0` to `outside_3`: and an entry outside RAM, at each level.
/// - `unread`: an entry outside RAM is not read.
#[tactic(auto, unfolding(sv8_mmu::specs::Walk::walk, sv8_mmu::specs::Walk::below_pointer, sv8_model::specs::Words::field, sv8_model::specs::Outside::word_of))]
pub fn worked_walks()
    ensures page_0 { gives (walk 0x100 0 3 0x1234_5678) ≡ walked.Page 0xe TableLevel.Context 0xc }
    ensures page_1 { gives (walk 0x100 0 0 0x0312_3456) ≡ walked.Page 0x1257_890e TableLevel.Level1 0x4c }
    ensures page_2 { gives (walk 0x100 0 0 0x000e_3456) ≡ walked.Page 0x1257_890e TableLevel.Level2 0x8c }
    ensures page_3 { gives (walk 0x100 0 0 0x3456) ≡ walked.Page 0x1257_890e TableLevel.Level3 0xcc }
    ensures reads { touched (walk 0x100 0 0 0x3456) ≡ Read 0 ∷ Read 0x40 ∷ Read 0x80 ∷ Read 0xcc ∷ [] }
    ensures reads_one { touched (walk 0x100 0 3 0x1234_5678) ≡ Read 0xc ∷ [] }
    ensures invalid_0 { gives (walk 0x100 0 1 0) ≡ walked.Fault FaultType.InvalidAddress TableLevel.Context }
    ensures invalid_1 { gives (walk 0x100 0 0 0x0100_0000) ≡ walked.Fault FaultType.InvalidAddress TableLevel.Level1 }
    ensures invalid_2 { gives (walk 0x100 0 0 0x4_0000) ≡ walked.Fault FaultType.InvalidAddress TableLevel.Level2 }
    ensures invalid_3 { gives (walk 0x100 0 0 0x1000) ≡ walked.Fault FaultType.InvalidAddress TableLevel.Level3 }
    ensures reserved_0 { gives (walk 0x100 0 2 0) ≡ walked.Fault FaultType.Translation TableLevel.Context }
    ensures reserved_1 { gives (walk 0x100 0 0 0x0200_0000) ≡ walked.Fault FaultType.Translation TableLevel.Level1 }
    ensures reserved_2 { gives (walk 0x100 0 0 0x8_0000) ≡ walked.Fault FaultType.Translation TableLevel.Level2 }
    ensures reserved_3 { gives (walk 0x100 0 0 0x2000) ≡ walked.Fault FaultType.Translation TableLevel.Level3 }
    ensures pointer { gives (walk 0x100 0 0 0x4000) ≡ walked.Fault FaultType.Translation TableLevel.Level3 }
    ensures outside_0 { gives (walk 0x100 0x10 0 0) ≡ walked.Fault FaultType.Translation TableLevel.Context }
    ensures outside_1 { gives (walk 0x100 0 4 0) ≡ walked.Fault FaultType.Translation TableLevel.Level1 }
    ensures outside_2 { gives (walk 0x100 0 0 0x0400_0000) ≡ walked.Fault FaultType.Translation TableLevel.Level2 }
    ensures outside_3 { gives (walk 0x100 0 0 0x10_0000) ≡ walked.Fault FaultType.Translation TableLevel.Level3 }
    ensures unread { touched (walk 0x100 0 4 0) ≡ Read 0x10 ∷ [] }
{}

/// The physical addresses to which an entry with page 125789 leads at each level (the numbers are hexadecimal).
#[tactic(auto, unfolding(sv8_mmu::specs::Translation::physical_address))]
pub fn worked_addresses()
    ensures level_0 { physical_address 0x1257_890e TableLevel.Context 0x1234_5678 ≡ 0x1_1234_5678 }
    ensures level_1 { physical_address 0x1257_890e TableLevel.Level1 0x0312_3456 ≡ 0x1_2512_3456 }
    ensures level_2 { physical_address 0x1257_890e TableLevel.Level2 0x000e_3456 ≡ 0x1_257a_3456 }
    ensures level_3 { physical_address 0x1257_890e TableLevel.Level3 0x3456 ≡ 0x1_2578_9456 }
{}

/// Translations by these tables (the numbers are hexadecimal).
///
/// - `off`: with E = 0 the physical address is the virtual one.
/// - `load`, `store`: a page of RAM, at 10.
/// - `sets_r`, `sets_m`: its entry E becomes 2E by the load, and 6E by the store.
/// - `stores_entry`: the load stores that entry.
/// - `has_r`, `has_m`: where the entry has those marks already, it is not stored.
/// - `gains_m`: where it has R alone, a store sets M.
/// - `large`: the page of context 3 maps all of its addresses.
/// - `device`: a word of a device, at its physical address.
/// - `no_device`: a device serves no fetch: a fault of type 5, which has no level.
/// - `nothing`: neither RAM nor a device is at 125789456.
/// - `unmarked`: a store that is refused leaves the entry as it was.
/// - `invalid`: a fault of the walk is that of the access.
pub fn worked_translations()
    ensures off { gives (translate 0x100 registers_at_reset 0xdead_beec AccessType.UserStore Reach.Ram) ≡ Translated.At 0xdead_beec }
    ensures load { gives (translate 0x100 (in_context 0) 0x10 AccessType.UserLoad Reach.Ram) ≡ Translated.At 0x10 }
    ensures store { gives (translate 0x100 (in_context 0) 0x10 AccessType.UserStore Reach.Ram) ≡ Translated.At 0x10 }
    ensures sets_r { leaves (translate 0x100 (in_context 0) 0x10 AccessType.UserLoad Reach.Ram) 0x30 ≡ 0x2e }
    ensures sets_m { leaves (translate 0x100 (in_context 0) 0x10 AccessType.SupervisorInstructionStore Reach.Ram) 0x30 ≡ 0x6e }
    ensures stores_entry { touched (translate 0x100 (in_context 0) 0x10 AccessType.UserLoad Reach.Ram) ≡ Read 0 ∷ Read 0x40 ∷ Read 0x80 ∷ Read 0xc0 ∷ Write 0xc0 ∷ [] }
    ensures has_r { touched (translate 0x100 (in_context 0) 0xd010 AccessType.SupervisorFetch Reach.Ram) ≡ Read 0 ∷ Read 0x40 ∷ Read 0x80 ∷ Read 0xf4 ∷ [] }
    ensures has_m { touched (translate 0x100 (in_context 0) 0xe010 AccessType.SupervisorStore Reach.Ram) ≡ Read 0 ∷ Read 0x40 ∷ Read 0x80 ∷ Read 0xf8 ∷ [] }
    ensures gains_m { leaves (translate 0x100 (in_context 0) 0xd010 AccessType.UserStore Reach.Ram) 0x3d ≡ 0x6e }
    ensures large { gives (translate 0x100 (in_context 3) 0xfc AccessType.UserFetch Reach.Ram) ≡ Translated.At 0xfc }
    ensures device { gives (translate 0x100 (in_context 0) 0xc008 AccessType.SupervisorStore Reach.RamOrDevices) ≡ Translated.At 0x8000_0008 }
    ensures no_device { gives (translate 0x100 (in_context 0) 0xc008 AccessType.UserFetch Reach.Ram) ≡ Translated.Refused FaultType.AccessBus TableLevel.Context }
    ensures nothing { gives (translate 0x100 (in_context 0) 0x3456 AccessType.UserLoad Reach.RamOrDevices) ≡ Translated.Refused FaultType.AccessBus TableLevel.Context }
    ensures unmarked { leaves (translate 0x100 (in_context 0) 0x3456 AccessType.UserStore Reach.Ram) 0x33 ≡ 0x1257_890e }
    ensures invalid { gives (translate 0x100 (in_context 0) 0x1000 AccessType.UserStore Reach.Ram) ≡ Translated.Refused FaultType.InvalidAddress TableLevel.Level3 }
{}

/// Accesses that the field ACC of an entry allows or refuses, at pages of level 3: a fault of type 2 is of protection, one of
/// type 3 of privilege.
///
/// - `read_only`: ACC 0 refuses a supervisor's store, and `read_only_fetch` its fetch.
/// - `no_fetch`: ACC 1 refuses a user's fetch, and `written` allows its store.
/// - `no_store`: ACC 2 refuses a user's store.
/// - `fetch_only`: ACC 4 refuses a supervisor's load, and `fetched` allows a user's fetch.
/// - `user_reads`: ACC 5 refuses a user's store, and `supervisor_writes` allows a supervisor's.
/// - `supervisor_reads`: ACC 6 allows a supervisor's load, and `not_users` refuses a user's.
/// - `supervisor_all`: ACC 7 allows a store to a supervisor's instructions, and `not_users_fetch` refuses a user's fetch.
pub fn worked_permissions()
    ensures read_only { gives (translate 0x100 (in_context 0) 0x5000 AccessType.SupervisorStore Reach.Ram) ≡ Translated.Refused FaultType.Protection TableLevel.Level3 }
    ensures read_only_fetch { gives (translate 0x100 (in_context 0) 0x5000 AccessType.SupervisorFetch Reach.Ram) ≡ Translated.Refused FaultType.Protection TableLevel.Level3 }
    ensures no_fetch { gives (translate 0x100 (in_context 0) 0x6000 AccessType.UserFetch Reach.Ram) ≡ Translated.Refused FaultType.Protection TableLevel.Level3 }
    ensures written { gives (translate 0x100 (in_context 0) 0x6000 AccessType.UserStore Reach.Ram) ≡ Translated.At 0 }
    ensures no_store { gives (translate 0x100 (in_context 0) 0x7000 AccessType.UserStore Reach.Ram) ≡ Translated.Refused FaultType.Protection TableLevel.Level3 }
    ensures fetch_only { gives (translate 0x100 (in_context 0) 0x8000 AccessType.SupervisorLoad Reach.Ram) ≡ Translated.Refused FaultType.Protection TableLevel.Level3 }
    ensures fetched { gives (translate 0x100 (in_context 0) 0x8000 AccessType.UserFetch Reach.Ram) ≡ Translated.At 0 }
    ensures user_reads { gives (translate 0x100 (in_context 0) 0x9000 AccessType.UserStore Reach.Ram) ≡ Translated.Refused FaultType.Protection TableLevel.Level3 }
    ensures supervisor_writes { gives (translate 0x100 (in_context 0) 0x9000 AccessType.SupervisorStore Reach.Ram) ≡ Translated.At 0 }
    ensures supervisor_reads { gives (translate 0x100 (in_context 0) 0xa000 AccessType.SupervisorLoad Reach.Ram) ≡ Translated.At 0 }
    ensures not_users { gives (translate 0x100 (in_context 0) 0xa000 AccessType.UserLoad Reach.Ram) ≡ Translated.Refused FaultType.Privilege TableLevel.Level3 }
    ensures supervisor_all { gives (translate 0x100 (in_context 0) 0xb000 AccessType.SupervisorInstructionStore Reach.Ram) ≡ Translated.At 0 }
    ensures not_users_fetch { gives (translate 0x100 (in_context 0) 0xb000 AccessType.UserFetch Reach.Ram) ≡ Translated.Refused FaultType.Privilege TableLevel.Level3 }
{}

/// Probes of these tables (the numbers are hexadecimal).
///
/// - `page`, `segment`, `region`, `context`: the entry of a page at levels 3, 2, 1 and 0.
/// - `to_segment`, `to_region`, `to_context`: a pointer at levels 2, 1 and 0.
/// - `no_pointer`: a pointer at level 3 gives 0.
/// - `invalid_page` to `invalid_context`: so does an invalid entry, at each level.
/// - `above_page`, `above_segment`: and the entry of a page above the level that is sought.
/// - `entire_page`, `entire_region`: a whole walk gives the entry of its page, at whatever level.
/// - `entire_none`: and 0 where it ends in a fault.
/// - `other`: types above 4 give 0, and read nothing (`other_reads`).
/// - `reads`: a probe reads the entries down to the level that is sought.
/// - `off`: with E = 0 it walks all the same.
pub fn worked_probes()
    ensures page { gives (probe 0x100 (in_context 0) 0x3000) ≡ 0x1257_890e }
    ensures segment { gives (probe 0x100 (in_context 0) 0x000c_0100) ≡ 0x1257_890e }
    ensures region { gives (probe 0x100 (in_context 0) 0x0300_0200) ≡ 0x1257_890e }
    ensures context { gives (probe 0x100 (in_context 3) 0x300) ≡ 0xe }
    ensures to_segment { gives (probe 0x100 (in_context 0) 0x100) ≡ 0xd }
    ensures to_region { gives (probe 0x100 (in_context 0) 0x200) ≡ 9 }
    ensures to_context { gives (probe 0x100 (in_context 0) 0x300) ≡ 5 }
    ensures no_pointer { gives (probe 0x100 (in_context 0) 0x4000) ≡ 0 }
    ensures invalid_page { gives (probe 0x100 (in_context 0) 0x1000) ≡ 0 }
    ensures invalid_segment { gives (probe 0x100 (in_context 0) 0x4_0100) ≡ 0 }
    ensures invalid_region { gives (probe 0x100 (in_context 0) 0x0100_0200) ≡ 0 }
    ensures invalid_context { gives (probe 0x100 (in_context 1) 0x300) ≡ 0 }
    ensures above_page { gives (probe 0x100 (in_context 0) 0x0300_0000) ≡ 0 }
    ensures above_segment { gives (probe 0x100 (in_context 3) 0x100) ≡ 0 }
    ensures entire_page { gives (probe 0x100 (in_context 0) 0x3400) ≡ 0x1257_890e }
    ensures entire_region { gives (probe 0x100 (in_context 0) 0x0300_0400) ≡ 0x1257_890e }
    ensures entire_none { gives (probe 0x100 (in_context 0) 0x1400) ≡ 0 }
    ensures other { gives (probe 0x100 (in_context 0) 0x3500) ≡ 0 }
    ensures other_reads { touched (probe 0x100 (in_context 0) 0x3500) ≡ [] }
    ensures reads { touched (probe 0x100 (in_context 0) 0x200) ≡ Read 0 ∷ Read 0x40 ∷ [] }
    ensures off { gives (probe 0x100 registers_at_reset 0x3000) ≡ 0x1257_890e }
{}

/// The fault status of a supervisor's fetch from address 10 (the numbers are hexadecimal).
///
/// - `level_3`: a fault of type 4 at level 3 is 372.
/// - `level_0`: at level 0 it is 72.
/// - `no_level`: one of type 5 is 76.
/// - `overwritten`: over another fault OW is set.
/// - `over_none`: over a status of type 0 it is not.
/// - `status`, `address`: both registers are recorded.
#[tactic(auto, unfolding(sv8_mmu::specs::Registers::status_of, sv8_mmu::specs::Registers::recorded, sv8_model::specs::Words::field))]
pub fn worked_faults()
    ensures level_3 { status_of 0 (fetch_fault FaultType.Translation TableLevel.Level3) ≡ 0x372 }
    ensures level_0 { status_of 0 (fetch_fault FaultType.Translation TableLevel.Context) ≡ 0x72 }
    ensures no_level { status_of 0 (fetch_fault FaultType.AccessBus TableLevel.Context) ≡ 0x76 }
    ensures overwritten { status_of 0x372 (fetch_fault FaultType.AccessBus TableLevel.Context) ≡ 0x77 }
    ensures over_none { status_of 0x362 (fetch_fault FaultType.AccessBus TableLevel.Context) ≡ 0x76 }
    ensures status { (recorded registers_at_reset (fetch_fault FaultType.Translation TableLevel.Level3)).fault_status ≡ 0x372 }
    ensures address { (recorded registers_at_reset (fetch_fault FaultType.Translation TableLevel.Level3)).fault_address ≡ 0x10 }
{}

/// Registers by their addresses (the numbers are hexadecimal).
///
/// - `control`, `table_pointer`, `context`: what a write of FFFFFFFF leaves.
/// - `fault_status`, `fault_address`: writes to these are ignored.
/// - `read_pointer`, `read_status`, `read_address`: reads.
/// - `cleared`: a read of the fault status clears it, and `kept` leaves the fault address.
/// - `none`: there is no register at 104.
#[tactic(auto, unfolding(sv8_mmu::specs::Registers::register_at, sv8_mmu::specs::Registers::after_read, sv8_mmu::specs::Registers::after_write, sv8_mmu::specs::Registers::status_of, sv8_mmu::specs::Registers::recorded, sv8_model::specs::Words::field))]
pub fn worked_registers()
    ensures control { (after_write registers_at_reset 0 0xffff_ffff).control ≡ 3 }
    ensures table_pointer { (after_write registers_at_reset 0x100 0xffff_ffff).table_pointer ≡ 0xffff_fffc }
    ensures context { (after_write registers_at_reset 0x200 0xffff_ffff).context ≡ 0xff }
    ensures fault_status { after_write registers_at_reset 0x300 0xffff_ffff ≡ registers_at_reset }
    ensures fault_address { after_write registers_at_reset 0x400 0xffff_ffff ≡ registers_at_reset }
    ensures read_pointer { register_at (after_write registers_at_reset 0x100 0x13) 0x100 ≡ Some 0x10 }
    ensures read_status { register_at (recorded registers_at_reset (fetch_fault FaultType.Translation TableLevel.Level3)) 0x300 ≡ Some 0x372 }
    ensures read_address { register_at (recorded registers_at_reset (fetch_fault FaultType.Translation TableLevel.Level3)) 0x400 ≡ Some 0x10 }
    ensures cleared { (after_read (recorded registers_at_reset (fetch_fault FaultType.Translation TableLevel.Level3)) 0x300).fault_status ≡ 0 }
    ensures kept { (after_read (recorded registers_at_reset (fetch_fault FaultType.Translation TableLevel.Level3)) 0x300).fault_address ≡ 0x10 }
    ensures none { register_at registers_at_reset 0x104 ≡ None }
{}

/// A translation that succeeds leads to the place of the address, whatever the access is.
pub fn translations_lead_to_places()
    ensures { TranslationsLeadToPlaces }
{}
