//! The walk through the tables in RAM.

ghost use Rattle.std.specs.Prelude.{◌≡◌, ◌<◌, ◌≤◌, ◌+◌, ◌*◌, ◌/◌, ◌%◌, ◌^◌, [], ◌∷◌, ◌++◌, length, IfSome, MatchOption, nat_lt, true, false};
ghost use Rattle.sv8_model.specs.Outside.{Outside, word_of};
ghost use Rattle.sv8_model.specs.Does.{Does, keeping, touching};
ghost use Rattle.sv8_mmu.specs.Walk.{table_of, indices_of, looked_up, below_pointer, walk};
ghost use Rattle.sv8_mmu.specs.Kept.{places_of, reads_of, IsEnd, IsWalk};

use crate::fault_type::FaultType;
use crate::table_level::TableLevel;
use sv8_model::TableMemory;

/// The end of a walk: the entry of a page with its level and its address, or a fault.
#[derive(Clone, Copy)]
pub enum Walked {
    Page {
        entry: u32,
        level: TableLevel,
        at: u32,
    },
    Fault {
        kind: FaultType,
        level: TableLevel,
    },
}

/// An index into a table of a level.
#[derive(Clone, Copy)]
pub struct TableIndex {
    pub level: TableLevel,
    pub index: u32,
}

/// The addresses of the entries that a walk read, the first `count` of these.
#[derive(Clone, Copy)]
pub struct Trail {
    pub places: [u32; 4],
    pub count: usize,
}

/// A walk: what it read, and its end.
#[derive(Clone, Copy)]
pub struct Walk {
    pub trail: Trail,
    pub end: Walked,
}

impl Trail {
    /// Nothing read yet.
    pub fn new() -> Self
        ensures places { places_of result ≡ [] }
        ensures count { result.count ≡ 0 }
    {
        Trail {
            places: [0; 4],
            count: 0,
        }
    }

    /// One entry more.
    fn push(&mut self, at: u32)
        requires { self.old.count < 4 }
        ensures count { self.new.count ≡ self.old.count + 1 }
        ensures places { places_of self.new ≡ places_of self.old ++ at ∷ [] }
    {
        self.places[self.count] = at;
        self.count += 1;
    }
}

/// The address of the table that a pointer names.
pub fn table_of(word: u32) -> u64
    ensures value { result ≡ table_of word }
    ensures aligned { result % 4 ≡ 0 }
    ensures most { result < 2 ^ 36 }
{
    word as u64 / 4 * 64
}

/// The indices into the tables of levels 1, 2 and 3.
#[tactic(auto, unfolding(sv8_model::specs::Words::field))]
pub fn indices_of(va: u32) -> [TableIndex; 3]
    ensures { result ≡ indices_of va }
{
    [
        TableIndex {
            level: TableLevel::Level1,
            index: va / 0x100_0000 % 0x100,
        },
        TableIndex {
            level: TableLevel::Level2,
            index: va / 0x4_0000 % 0x40,
        },
        TableIndex {
            level: TableLevel::Level3,
            index: va / 0x1000 % 0x40,
        },
    ]
}

/// The entry at an address, where it lies in RAM.
pub fn entry_at<R: TableMemory>(phys: &R, at: u64, trail: &mut Trail) -> Option<u32>
    requires aligned { at % 4 ≡ 0 }
    requires room { trail.old.count < 4 }
    ensures count { trail.new.count ≤ trail.old.count + 1 }
    ensures within { IfSome result (λ _. at + 4 ≤ R.SIZE) }
    ensures small { IfSome result (λ _. at < 2 ^ 32) }
    ensures entry { MatchOption result
        ((nat_lt at R.SIZE ≡ false) × (places_of trail.new ≡ places_of trail.old))
        (λ e. (nat_lt at R.SIZE ≡ true) × (e ≡ word_of (R.ram phys.now) (at / 4)) × (places_of trail.new ≡ places_of trail.old ++ at ∷ [])) }
{
    if at < phys.size() {
        trail.push(at as u32);
        Some(phys.table_word(at as u32))
    } else {
        None
    }
}

/// What a pointer at a level leads to: the entry of the next level, with the indices into the tables below.
#[cycle(levels)]
#[tactic(auto, unfolding(crate::specs::Walk::below_pointer))]
fn below_pointer<R: TableMemory>(
    phys: &R,
    level: TableLevel,
    below: &[TableIndex],
    entry: u32,
    trail: &mut Trail,
) -> Walked
    requires room { trail.old.count + length below.now ≤ 4 }
    ensures end { IsEnd R.SIZE result }
    ensures walk { (o : Outside) → Does (keeping true true) (below_pointer R.SIZE level below.now entry)
        (record o { ram = R.ram phys.now }) (record o { ram = R.ram phys.now }) result (touching (reads_of (places_of trail.old))) (touching (reads_of (places_of trail.new))) }
{
    match below {
        [] => Walked::Fault {
            kind: FaultType::Translation,
            level,
        },
        [to, after @ ..] => look_up(
            phys,
            to.level,
            after,
            table_of(entry) + 4 * (to.index as u64),
            trail,
        ),
    }
}

/// The entry of a level at an address, and what it leads to, with the indices into the tables below.
#[cycle(levels)]
fn look_up<R: TableMemory>(
    phys: &R,
    level: TableLevel,
    below: &[TableIndex],
    at: u64,
    trail: &mut Trail,
) -> Walked
    requires aligned { at % 4 ≡ 0 }
    requires room { trail.old.count + length below.now ≤ 3 }
    ensures end { IsEnd R.SIZE result }
    ensures walk { (o : Outside) → Does (keeping true true) (looked_up R.SIZE level at (below_pointer R.SIZE level below.now))
        (record o { ram = R.ram phys.now }) (record o { ram = R.ram phys.now }) result (touching (reads_of (places_of trail.old))) (touching (reads_of (places_of trail.new))) }
{
    match entry_at(phys, at, trail) {
        None => Walked::Fault {
            kind: FaultType::Translation,
            level,
        },
        Some(entry) => match entry % 4 {
            1 => below_pointer(phys, level, below, entry, trail),
            2 => Walked::Page {
                entry,
                level,
                at: at as u32,
            },
            0 => Walked::Fault {
                kind: FaultType::InvalidAddress,
                level,
            },
            _ => Walked::Fault {
                kind: FaultType::Translation,
                level,
            },
        },
    }
}

/// The walk for a context and a virtual address.
#[tactic(auto, unfolding(crate::specs::Walk::walk))]
pub fn walk_for<R: TableMemory>(phys: &R, table_pointer: u32, context: u32, va: u32) -> Walk
    ensures { IsWalk R.SIZE (R.ram phys.now) table_pointer context va result }
{
    let mut trail = Trail::new();
    let indices = indices_of(va);
    let root = table_of(table_pointer) + 4 * (context as u64);
    let end = look_up(phys, TableLevel::Context, &indices, root, &mut trail);
    Walk { trail, end }
}
