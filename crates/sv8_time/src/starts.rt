//! Running sums of bytes.

ghost use Rattle.std.specs.Prelude.{◌≡◌, ◌+◌, ◌≤◌, ◌<◌, ◌^◌, ◌++◌, map, take, drop, length, nat_le, slice_get, Some};
ghost use Rattle.std.specs.List.{prefix_len};
ghost use Rattle.sv8_time.specs.Order.{Rising};
ghost use Rattle.sv8_time.specs.Schedule.{byte_count};
ghost use Rattle.sv8_time.specs.Inputs.{starts_of};

/// What holds bytes that came in.
pub(crate) trait Holder {
    ghost use Rattle.std.specs.Prelude.{◌≡◌, ◌<◌, ◌^◌, length};
    ghost use Rattle.sv8_time.specs.Schedule.{Input};

    ghost held: { Self → Input };

    /// How many bytes it holds.
    fn byte_total(&self) -> u32
        requires { length (held self.now).bytes < 2 ^ 32 }
        ensures { result ≡ length (held self.now).bytes };
}

/// Counts the bytes before each holder from one on, and answers how many there are in all.
///
/// `before` is the number of bytes before that one. What stands before it is not looked at.
pub(crate) fn recount<H: Holder>(
    holders: &[H],
    starts: &mut Vec<u32>,
    from: usize,
    before: u32,
) -> u32
    requires same { length starts.old.items ≡ length holders.now }
    requires fits { byte_count (map H.held holders.now) < 2 ^ 32 }
    requires front { take from starts.old.items ++ starts_of before (drop from (map H.held holders.now)) ≡ starts_of 0 (map H.held holders.now) }
    requires sum { before + byte_count (drop from (map H.held holders.now)) ≡ byte_count (map H.held holders.now) }
    ensures starts { starts.new.items ≡ starts_of 0 (map H.held holders.now) }
    ensures total { result ≡ byte_count (map H.held holders.now) }
{
    let mut total = before;
    for index in from..holders.len() {
        starts[index] = total;
        let holder = &holders[index];
        total += holder.byte_total();
    }
    total
}

/// The number of bytes before a holder.
pub(crate) fn start_at(starts: &[u32], index: usize) -> Option<u32>
    ensures { result ≡ slice_get starts.now index }
{
    starts.get(index).copied()
}

/// The same of a holder that is there.
pub(crate) fn start_in(starts: &[u32], index: usize) -> u32
    requires { index < length starts.now }
    ensures { slice_get starts.now index ≡ Some result }
{
    starts[index]
}

/// How many holders begin at or below a byte, the bytes of all counted from 0.
pub(crate) fn count_started(starts: &[u32], byte: u32) -> usize
    requires { Rising nat_le starts.now }
    ensures value { result ≡ prefix_len (λ s. nat_le s byte) starts.now }
    ensures bound { result ≤ length starts.now }
{
    starts.partition_point(|start| *start <= byte)
}
