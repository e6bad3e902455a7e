//! Lines and words of answers, added to a text.

ghost use Rattle.std.specs.Prelude.{◌≡◌, ◌+◌, ◌*◌, ◌≤◌, ◌++◌, length, codes, flat_map};
ghost use Rattle.sv8_commands.specs.Text.{hex_word, ok_line, refusal_line, at_line, words_line};
ghost use Rattle.sv8_commands.specs.Put.{refusal_in};

use crate::refusal::Refusal;
use crate::text::Text;

/// The last line of an accepted command's answer.
#[tactic(auto, unfolding(crate::specs::Text::ok_line))]
pub fn add_ok(text: &mut Text)
    requires room { length text.old + 3 ≤ 4096 }
    ensures text { text.new ≡ text.old ++ ok_line }
{
    text.add(b"ok\n");
}

fn add_at_line(text: &mut Text, line: Option<u32>)
    requires room { length text.old + 16 ≤ 4096 }
    ensures text { text.new ≡ text.old ++ at_line line }
    ensures len { length text.new ≤ length text.old + 16 }
{
    if let Some(line) = line {
        text.add(b" line ");
        text.add_decimal(line);
    }
}

/// The line of a refusal.
#[tactic(auto, unfolding(crate::specs::Text::refusal_line))]
pub fn add_refusal(text: &mut Text, refusal: Refusal)
    requires short { length refusal.name.now ≤ 16 }
    requires room { length text.old + 64 ≤ 4096 }
    ensures text { text.new ≡ text.old ++ refusal_line (refusal_in refusal) }
{
    text.add(b"refused ");
    text.add_decimal(refusal.number);
    text.add(b" ");
    text.add(refusal.name);
    add_at_line(text, refusal.line);
    text.add(b"\n");
}

/// Words, with a space before each.
pub fn add_words(text: &mut Text, words: &[u32])
    requires room { length text.old + 9 * length words.now ≤ 4096 }
    ensures text { text.new ≡ text.old ++ flat_map (λ w. codes " " ++ hex_word w) words.now }
    ensures len { length text.new ≡ length text.old + 9 * length words.now }
{
    for word in words {
        text.add(b" ");
        text.add_word(*word);
    }
}

/// Words behind a name.
#[tactic(auto, unfolding(crate::specs::Text::words_line))]
pub fn add_words_line(text: &mut Text, name: &[u8], words: &[u32])
    requires few { (length name.now ≤ 3) × (length words.now ≤ 8) }
    requires room { length text.old + 76 ≤ 4096 }
    ensures text { text.new ≡ text.old ++ words_line name.now words.now }
    ensures len { length text.new ≤ length text.old + 76 }
{
    text.add(name);
    add_words(text, words);
    text.add(b"\n");
}
