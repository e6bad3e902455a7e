//! The words of registers. Those of a window are copied to and from their places in the rows of all windows, and arrays
//! of words are compared.

ghost use Rattle.std.specs.Prelude.{◌≡◌, ◌≢◌, ◌<◌, ◌≤◌, ◌+◌, ℕ, MatchBool, length, slice_index};
ghost use Rattle.sv8_regs.specs.Control.{above};
ghost use Rattle.sv8_regs.specs.Current.{ring_of, IsVacant};
ghost use Rattle.sv8_regs.specs.Ring.{flat, place};

/// Copies `count` words of `from`, those at `read_at` and after it, to `to`, at `write_at` and after it.
#[inline(always)]
fn copy_words(from: &[u32], read_at: usize, to: &mut [u32], write_at: usize, count: usize)
    requires inside_from { read_at + count ≤ length from.now }
    requires inside_to { write_at + count ≤ length to.old }
    ensures len { length to.new ≡ length to.old }
    ensures copied { (k : ℕ) → k < count → slice_index to.new (write_at + k) ≡ slice_index from.now (read_at + k) }
    ensures before { (k : ℕ) → k < write_at → slice_index to.new k ≡ slice_index to.old k }
    ensures after { (k : ℕ) → write_at + count ≤ k → slice_index to.new k ≡ slice_index to.old k }
{
    for k in 0..count {
        to[write_at + k] = from[read_at + k];
    }
}

/// The window above. With a test in place of the remainder the compiler copies the ins one by one.
#[inline(always)]
fn window_above<const NW: usize>(window: usize) -> usize
    requires inside { window < NW }
    requires few { NW ≤ 32 }
    ensures value { result ≡ above NW window }
    ensures in_range { result < NW }
{
    (window + 1) % NW
}

/// Puts the words of registers 8 to 31 into the places of a window.
#[inline(always)]
fn put<const NW: usize>(rows: &mut [[u32; 16]; NW], words: &[u32; 32], window: usize)
    requires inside { window < NW }
    requires some { 2 ≤ NW }
    requires few { NW ≤ 32 }
    ensures { flat NW rows.new ≡ ring_of NW window words.now (flat NW rows.old) }
{
    let above = window_above::<NW>(window);
    let own = &mut rows[window];
    copy_words(words, 8, own, 0, 16);
    let shared = &mut rows[above];
    copy_words(words, 24, shared, 0, 8);
}

/// Copies registers 8 to 31 of a window from their places. The globals stay.
#[inline(always)]
fn take_out<const NW: usize>(rows: &[[u32; 16]; NW], current: &mut [u32; 32], window: usize)
    requires inside { window < NW }
    requires some { 2 ≤ NW }
    requires few { NW ≤ 32 }
    ensures globals { (r : ℕ) → r < 8 → slice_index current.new r ≡ slice_index current.old r }
    ensures window { (r : ℕ) → 8 ≤ r → r < 32 → slice_index current.new r ≡ slice_index (flat NW rows.now) (place NW window r) }
{
    let above = window_above::<NW>(window);
    copy_words(&rows[window], 0, current, 8, 16);
    copy_words(&rows[above], 0, current, 24, 8);
}

/// Puts the registers of window `from` back into the rows, and takes out those of window `to`. Their places are then 0.
#[inline(always)]
pub(crate) fn change_window<const NW: usize>(
    rows: &mut [[u32; 16]; NW],
    current: &mut [u32; 32],
    from: usize,
    to: usize,
)
    requires inside { from < NW }
    requires inside_to { to < NW }
    requires some { 2 ≤ NW }
    requires few { NW ≤ 32 }
    ensures len { length current.new ≡ 32 }
    ensures globals { (r : ℕ) → r < 8 → slice_index current.new r ≡ slice_index current.old r }
    ensures ring { ring_of NW to current.new (flat NW rows.new) ≡ ring_of NW from current.old (flat NW rows.old) }
    ensures vacant { IsVacant NW to (flat NW rows.new) }
{
    put(rows, current, from);
    take_out(rows, current, to);
    put(rows, &[0; 32], to);
}

/// Whether two arrays are the same. All words are looked at, so that the machine that it runs on compares several at a
/// time.
#[inline(always)]
pub(crate) fn same_words<const N: usize>(one: &[u32; N], other: &[u32; N]) -> bool
    requires { N ≤ 32 }
    ensures len { length one.now ≡ N }
    ensures other_len { length other.now ≡ N }
    ensures same { MatchBool result (one.now ≡ other.now) (one.now ≢ other.now) }
{
    let mut same = true;
    for k in 0..N {
        same &= one[k] == other[k];
    }
    same
}

/// Whether the words of all rows are the same.
#[inline(always)]
pub(crate) fn same_rows<const NW: usize>(one: &[[u32; 16]; NW], other: &[[u32; 16]; NW]) -> bool
    requires { NW ≤ 32 }
    ensures { MatchBool result (flat NW one.now ≡ flat NW other.now) (flat NW one.now ≢ flat NW other.now) }
{
    let mut same = true;
    for window in 0..NW {
        same &= same_words(&one[window], &other[window]);
    }
    same
}
