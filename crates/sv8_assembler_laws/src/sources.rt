//! What is true of every source, as contracts of functions that do nothing, and some sources worked out.

ghost use Rattle.std.specs.Prelude.{◌≡◌, Some, codes, map, [], ◌∷◌, pos, negsuc};
ghost use Rattle.sv8_statements.specs.declared.fault.LineFault.TheVariants.{Syntax, UnknownName, DuplicateLabel, OutOfRange, BadAlignment, OrgBackwards, ImageTooLarge};
ghost use Rattle.sv8_source.specs.declared.fault.SourceFault.TheVariants.{Line};
ghost use Rattle.sv8_source.specs.Listing.{listing};
ghost use Rattle.sv8_source.specs.Names.{names, label_named, number_named};
ghost use Rattle.sv8_assembler_laws.specs.NameLaws.{NamesAreTold};
ghost use Rattle.sv8_source.specs.Text.{fault};
ghost use Rattle.sv8_source.specs.Laws.{TextsAreLines, LinesRise};
ghost use Rattle.sv8_assembler_laws.specs.FaultLaws.{LowestLineIsNamed, LeastFaultIsNamed};
ghost use Rattle.sv8_assembler_laws.specs.LayoutLaws.{LocationsFollow, NamesAreDefined, NearestLabelsCount, NothingBeyond};

/// The listing of a source that assembles has its lines, in order.
pub fn texts_are_lines()
    ensures { TextsAreLines }
{}

/// Each line of a listing begins behind the bytes of those before it, so no two lines place the same byte.
pub fn lines_rise()
    ensures { LinesRise }
{}

/// The fault of a source is that of the lowest faulty line: the lines before it have none in the same pass, and one of the value pass
/// comes only where the layout pass has none.
pub fn lowest_line_is_named()
    ensures { LowestLineIsNamed }
{}

/// Of several faults that a line has in the layout pass, the one of the lowest number is named.
pub fn least_fault_is_named()
    ensures { LeastFaultIsNamed }
{}

/// The first line of a source stands at location 0, and each other line behind the one before it: at that line's location and its size
/// there. No line stands above the limit.
pub fn locations_follow()
    ensures { LocationsFollow }
{}

/// Behind the layout pass a label stands for the location of its line, the name of `.equ` for its number, and no other name for
/// anything.
pub fn names_are_defined()
    ensures { NamesAreDefined }
{}

/// The names of a source are its labels, each with the location of its line, and the names of `.equ`, each with its
/// number modulo 2^32, and no others. Each one comes before all behind it.
pub fn names_are_told()
    ensures { NamesAreTold }
{}

/// A reference to a local label stands for the nearest line that has its digit: `f` for the first one behind the line of the reference,
/// `b` for the last one up to and with that line.
pub fn nearest_labels_count()
    ensures { NearestLabelsCount }
{}

/// No line of a source places a byte at the limit or above it.
pub fn nothing_beyond()
    ensures { NothingBeyond }
{}

/// The names of sources, in their order: by value without sign, and then by their bytes, whichever kind.
#[tactic(auto, unfolding(crate::proofs::OnLiterals::source_on_literals, sv8_source::specs::Names::names))]
pub fn worked_names()
    ensures mixed { names (record { limit = 0x100000; lines = codes "nop" ∷ codes "z: .equ a, 4" ∷ codes ".equ n, -1" ∷ codes "1: nop" ∷ codes "m: nop" ∷ [] }) ≡ number_named (codes "a") (pos 4) ∷ label_named (codes "z") 4 ∷ label_named (codes "m") 8 ∷ number_named (codes "n") (negsuc 0) ∷ [] }
    ensures begins { names (record { limit = 0x100000; lines = codes "ab: nop" ∷ codes ".equ a, 0" ∷ codes ".equ B, 0" ∷ [] }) ≡ number_named (codes "B") (pos 0) ∷ number_named (codes "a") (pos 0) ∷ label_named (codes "ab") 0 ∷ [] }
{}

/// Sources that are refused, with the line at fault.
#[tactic(auto, unfolding(crate::proofs::OnLiterals::source_on_literals))]
pub fn worked_faults()
    ensures duplicate { fault (record { limit = 0x100000; lines = codes "x: nop" ∷ codes "x: nop" ∷ [] }) ≡ Some (Line 2 DuplicateLabel) }
    ensures range { fault (record { limit = 0x100000; lines = codes "add %g0, 4096, %g1" ∷ [] }) ≡ Some (Line 1 OutOfRange) }
    ensures alignment { fault (record { limit = 0x100000; lines = codes ".byte 1" ∷ codes "nop" ∷ [] }) ≡ Some (Line 2 BadAlignment) }
    ensures backwards { fault (record { limit = 0x100000; lines = codes ".org 8" ∷ codes ".org 4" ∷ [] }) ≡ Some (Line 2 OrgBackwards) }
    ensures too_large { fault (record { limit = 0x100000; lines = codes ".org 0x100000" ∷ codes "nop" ∷ [] }) ≡ Some (Line 2 ImageTooLarge) }
    ensures layout_first { fault (record { limit = 0x100000; lines = codes "bne nowhere" ∷ codes "add" ∷ [] }) ≡ Some (Line 2 Syntax) }
    ensures unknown { fault (record { limit = 0x100000; lines = codes ".word 7" ∷ codes "bne nowhere" ∷ [] }) ≡ Some (Line 2 UnknownName) }
    ensures no_label { fault (record { limit = 0x100000; lines = codes "1: nop" ∷ codes "ba 1f" ∷ codes "nop" ∷ codes "ba 1b" ∷ codes "nop" ∷ [] }) ≡ Some (Line 2 UnknownName) }
{}

/// What the lines of sources place, with their bytes as another assembler gives them.
#[tactic(auto, unfolding(crate::proofs::OnLiterals::source_on_literals))]
pub fn worked_listings()
    ensures program { map (λ l. l.bytes) (listing (record { limit = 0x100000; lines = codes "start: mov 5, %g1" ∷ codes "add %g1, 1, %g2" ∷ codes "ba start" ∷ codes "nop" ∷ [] })) ≡ (0x82 ∷ 0x10 ∷ 0x20 ∷ 0x05 ∷ []) ∷ (0x84 ∷ 0x00 ∷ 0x60 ∷ 0x01 ∷ []) ∷ (0x10 ∷ 0xBF ∷ 0xFF ∷ 0xFE ∷ []) ∷ (0x01 ∷ 0x00 ∷ 0x00 ∷ 0x00 ∷ []) ∷ [] }
    ensures local { map (λ l. l.bytes) (listing (record { limit = 0x100000; lines = codes "1: nop" ∷ codes "ba 1f" ∷ codes "nop" ∷ codes "1: ba 1b" ∷ codes "nop" ∷ [] })) ≡ (0x01 ∷ 0x00 ∷ 0x00 ∷ 0x00 ∷ []) ∷ (0x10 ∷ 0x80 ∷ 0x00 ∷ 0x02 ∷ []) ∷ (0x01 ∷ 0x00 ∷ 0x00 ∷ 0x00 ∷ []) ∷ (0x10 ∷ 0x80 ∷ 0x00 ∷ 0x00 ∷ []) ∷ (0x01 ∷ 0x00 ∷ 0x00 ∷ 0x00 ∷ []) ∷ [] }
    ensures moved { map (λ l. l.bytes) (listing (record { limit = 0x100000; lines = codes "ba x" ∷ codes "nop" ∷ codes "nop" ∷ codes "x: nop" ∷ [] })) ≡ (0x10 ∷ 0x80 ∷ 0x00 ∷ 0x03 ∷ []) ∷ (0x01 ∷ 0x00 ∷ 0x00 ∷ 0x00 ∷ []) ∷ (0x01 ∷ 0x00 ∷ 0x00 ∷ 0x00 ∷ []) ∷ (0x01 ∷ 0x00 ∷ 0x00 ∷ 0x00 ∷ []) ∷ [] }
    ensures number { map (λ l. l.bytes) (listing (record { limit = 0x100000; lines = codes ".equ n, 6" ∷ codes "mov n, %g1" ∷ [] })) ≡ ([]) ∷ (0x82 ∷ 0x10 ∷ 0x20 ∷ 0x06 ∷ []) ∷ [] }
{}
