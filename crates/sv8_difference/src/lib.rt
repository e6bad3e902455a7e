//! Where a text differs from the one that is due.
#![tactic(auto)]

ghost use Rattle.std.specs.Prelude.{◌≡◌, ◌≢◌, ◌≤◌, ◌↔◌, [], ◌∷◌, Some, None, true, false, IsNone, MatchOption, length};
ghost use Rattle.sv8_difference.specs.Difference.{line_end, difference, IsSplit};

/// The first line in which two texts differ. A line has its LF; where a text has ended, its line is empty.
#[derive(Drop)]
pub struct Difference<'a> {
    /// The line's number, from 1 on.
    pub line: usize,
    pub due: &'a [u8],
    pub came: &'a [u8],
}

/// Where the first line of a text ends, with its LF.
#[tactic(auto, using(crate::proofs::Lines::same_end), unfolding(crate::proofs::Lines::end_by_bytes))]
pub fn line_end(text: &[u8]) -> usize
    ensures value { result ≡ line_end text.now }
    ensures most { result ≤ length text.now }
{
    let mut end = 0;
    let mut rest = text;
    while let [first, after @ ..] = rest {
        end += 1;
        if *first == b'\n' {
            return end;
        }
        rest = after;
    }
    end
}

/// The first line of a text, with its LF, and what is left.
#[tactic(auto, using(crate::proofs::Lines::splits))]
fn split_line(text: &[u8]) -> (&[u8], &[u8])
    ensures { IsSplit text.now result.0.now result.1.now }
{
    text.split_at(line_end(text))
}

/// Whether two texts have ended.
fn have_ended(due: &[u8], came: &[u8]) -> bool
    ensures ended { result ≡ true → (due.now ≡ []) × (came.now ≡ []) }
    ensures some { result ≡ false → due.now ≡ [] → came.now ≢ [] }
{
    due.is_empty() && came.is_empty()
}

/// The first difference of the text that is due and the one that came.
pub fn first_difference<'a>(due: &'a [u8], came: &'a [u8]) -> Option<Difference<'a>>
    ensures same { IsNone result ↔ (due.now ≡ came.now) }
    ensures first { MatchOption result (difference due.now came.now ≡ None) (λ d. difference due.now came.now ≡ Some (d.line, d.due.now, d.came.now)) }
{
    let mut line = 1;
    let mut due_rest = due;
    let mut came_rest = came;
    while !have_ended(due_rest, came_rest) {
        let (due_line, due_after) = split_line(due_rest);
        let (came_line, came_after) = split_line(came_rest);
        if due_line != came_line {
            return Some(Difference {
                line,
                due: due_line,
                came: came_line,
            });
        }
        line += 1;
        due_rest = due_after;
        came_rest = came_after;
    }
    None
}

/// Differences of small texts, computed: another second line, a text that ends early, and a line without its LF.
#[tactic(auto, unfolding(crate::specs::Difference::with_byte, crate::specs::Difference::lines, crate::specs::Difference::difference_from))]
pub fn worked_differences()
    ensures second_line { difference (97 ∷ 10 ∷ 98 ∷ 10 ∷ []) (97 ∷ 10 ∷ 99 ∷ []) ≡ Some (2, 98 ∷ 10 ∷ [], 99 ∷ []) }
    ensures early_end { difference (97 ∷ 10 ∷ 98 ∷ 10 ∷ []) (97 ∷ 10 ∷ []) ≡ Some (2, 98 ∷ 10 ∷ [], []) }
    ensures without_lf { difference (97 ∷ 10 ∷ []) (97 ∷ []) ≡ Some (1, 97 ∷ 10 ∷ [], 97 ∷ []) }
    ensures same { difference (97 ∷ 10 ∷ 10 ∷ 98 ∷ []) (97 ∷ 10 ∷ 10 ∷ 98 ∷ []) ≡ None }
{}
