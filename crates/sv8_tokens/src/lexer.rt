//! A line's text to its tokens.

ghost use Rattle.std.specs.Prelude.{◌≡◌, option_map, false, IfSome, IfOk, ◌<◌, ◌≤◌, length};
ghost use Rattle.sv8_tokens.specs.Token.{view};
ghost use Rattle.sv8_tokens.specs.Spelling.{is_blank, is_name_byte, span, behind_colon};
ghost use Rattle.sv8_statements.specs.Outcome.{Gives};
ghost use Rattle.sv8_tokens.specs.Cutting.{IsCutResult};
ghost use Rattle.sv8_tokens.specs.Lexing.{mark_of, quote_at, label_of, label_or_number, digits_front, run_front, word_front, quoted_front, percent_front, token_front, next_of};

use crate::number::numeral;
use crate::percent::percent_of;
use crate::token::{Mark, Token};
use std::alloc::Global;
use sv8_statements::{Read, SYNTAX, is_digit, is_reference};

fn is_blank(byte: u8) -> bool
    ensures { result ≡ is_blank byte }
{
    byte == b' ' || byte == b'\t'
}

fn is_name_byte(byte: u8) -> bool
    ensures { result ≡ is_name_byte byte }
{
    byte.is_ascii_alphanumeric() || byte == b'_' || byte == b'.' || byte == b'$'
}

fn after_blanks(text: &[u8]) -> &[u8]
    ensures { result.now ≡ (span is_blank text.now).1 }
{
    let mut rest = text;
    while let [first, after @ ..] = rest {
        if !is_blank(*first) {
            break;
        }
        rest = after;
    }
    rest
}

fn name_span(text: &[u8]) -> (&[u8], &[u8])
    ensures front { result.0.now ≡ (span is_name_byte text.now).0 }
    ensures rest { result.1.now ≡ (span is_name_byte text.now).1 }
{
    let mut n = 0;
    while n < text.len() && is_name_byte(text[n]) {
        n += 1;
    }
    text.split_at(n)
}

#[tactic(auto, unfolding(crate::specs::Lexing::mark_of))]
fn mark(byte: u8) -> Option<Mark>
    ensures { result ≡ mark_of byte }
{
    match byte {
        b',' => Some(Mark::Comma),
        b':' => Some(Mark::Colon),
        b'+' => Some(Mark::Plus),
        b'-' => Some(Mark::Minus),
        b'[' => Some(Mark::OpenBracket),
        b']' => Some(Mark::CloseBracket),
        b'(' => Some(Mark::OpenParen),
        b')' => Some(Mark::CloseParen),
        _ => None,
    }
}

#[tactic(auto, unfolding(crate::specs::Lexing::quote_at))]
fn quote_at(text: &[u8]) -> Option<usize>
    ensures place { result ≡ quote_at false text.now }
    ensures within { IfSome result (λ n. n < length text.now) }
{
    let mut escaped = false;
    for (n, byte) in text.iter().enumerate() {
        if escaped {
            escaped = false;
            continue;
        }
        if *byte == b'"' {
            return Some(n);
        }
        escaped = *byte == b'\\';
    }
    None
}

/// What stands behind a colon; blanks before it are free.
fn behind_colon(text: &[u8]) -> Option<&[u8]>
    ensures { option_map (λ t. t.now) result ≡ behind_colon text.now }
{
    match after_blanks(text) {
        [b':', behind @ ..] => Some(behind),
        _ => None,
    }
}

/// The local label that the word is.
#[tactic(auto, unfolding(crate::specs::Lexing::label_of))]
fn label(word: &[u8]) -> Option<u8>
    ensures { result ≡ label_of word.now }
{
    let [digit] = word else {
        return None;
    };
    if is_digit(*digit) {
        Some(*digit - b'0')
    } else {
        None
    }
}

#[tactic(auto, unfolding(crate::specs::Lexing::label_or_number))]
fn label_or_number<'a>(word: &'a [u8], rest: &'a [u8]) -> Option<(Token<'a>, &'a [u8])>
    ensures { option_map (λ x. (view x.0, x.1.now)) result ≡ label_or_number word.now rest.now (behind_colon rest.now) }
{
    match behind_colon(rest) {
        Some(behind) => Some((Token::Local(label(word)?), behind)),
        None => Some((Token::Number(numeral(word)?), rest)),
    }
}

#[tactic(auto, unfolding(crate::specs::Lexing::digits_front))]
fn digits_front<'a>(word: &'a [u8], rest: &'a [u8]) -> Option<(Token<'a>, &'a [u8])>
    ensures { option_map (λ x. (view x.0, x.1.now)) result ≡ digits_front word.now rest.now }
{
    if is_reference(word) {
        return Some((Token::Word(word), rest));
    }
    label_or_number(word, rest)
}

#[tactic(auto, unfolding(crate::specs::Lexing::run_front))]
fn run_front<'a>(word: &'a [u8], rest: &'a [u8]) -> Option<(Token<'a>, &'a [u8])>
    ensures { option_map (λ x. (view x.0, x.1.now)) result ≡ run_front word.now rest.now }
{
    let [first, ..] = word else {
        return None;
    };
    if is_digit(*first) {
        digits_front(word, rest)
    } else {
        Some((Token::Word(word), rest))
    }
}

#[tactic(auto, unfolding(crate::specs::Lexing::quoted_front))]
fn quoted_front(text: &[u8]) -> Option<(Token<'_>, &[u8])>
    ensures { option_map (λ x. (view x.0, x.1.now)) result ≡ quoted_front text.now }
{
    let n = quote_at(text)?;
    Some((Token::Quoted(&text[..n]), &text[n + 1..]))
}

#[tactic(auto, unfolding(crate::specs::Lexing::percent_front))]
fn percent_front(text: &[u8]) -> Option<(Token<'_>, &[u8])>
    ensures { option_map (λ x. (view x.0, x.1.now)) result ≡ percent_front text.now }
{
    let (name, rest) = name_span(text);
    Some((Token::Percent(percent_of(name)?), rest))
}

#[tactic(auto, unfolding(crate::specs::Lexing::word_front))]
fn word_front(text: &[u8]) -> Option<(Token<'_>, &[u8])>
    ensures { option_map (λ x. (view x.0, x.1.now)) result ≡ word_front text.now }
{
    let (word, rest) = name_span(text);
    run_front(word, rest)
}

#[tactic(auto, unfolding(crate::specs::Lexing::token_front))]
fn token_front(text: &[u8]) -> Option<(Token<'_>, &[u8])>
    ensures { option_map (λ x. (view x.0, x.1.now)) result ≡ token_front text.now }
{
    match text {
        [] => None,
        [b'"', rest @ ..] => quoted_front(rest),
        [b'%', rest @ ..] => percent_front(rest),
        [first, rest @ ..] => match mark(*first) {
            Some(m) => Some((Token::Mark(m), rest)),
            None => word_front(text),
        },
    }
}

#[tactic(auto, unfolding(crate::specs::Lexing::next_of))]
fn next(text: &[u8]) -> Read<Option<(Token<'_>, &[u8])>>
    ensures { Gives (option_map (λ x. (view x.0, x.1.now))) result (next_of text.now) }
{
    let text = after_blanks(text);
    match text {
        [] | [b'!', ..] => Ok(None),
        _ => match token_front(text) {
            Some(found) => Ok(Some(found)),
            None => Err(SYNTAX),
        },
    }
}

/// The tokens of a text.
pub fn tokens(alloc: Global, text: &[u8]) -> Read<Vec<Token<'_>>>
    ensures cut { IsCutResult text.now result }
    ensures few { IfOk result (λ ts. length ts.items ≤ length text.now) }
{
    let mut out = Vec::new(alloc);
    let mut rest = text;
    while let Some((token, after)) = next(rest)? {
        out.push(token)?;
        rest = after;
    }
    Ok(out)
}
