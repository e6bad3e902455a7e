//! A line's text to its statement.

ghost use Rattle.std.specs.Prelude.{◌≡◌, option_map, ◌≤◌, ◌+◌, length, ◌<◌, ◌∷◌, IfSome, IfOk, IsTrue, ◌↔◌, MatchResult, Ok, Err};
ghost use Rattle.sv8_model.specs.Refused.{ByFault};
ghost use Rattle.sv8_tokens.specs.Token.{views};
ghost use Rattle.sv8_statements.specs.Operand.{operand_views};
ghost use Rattle.sv8_tokens.specs.Spelling.{AllPass};
ghost use Rattle.sv8_statements.specs.Names.{Defines};
ghost use Rattle.sv8_syntax.specs.Grammar.{is_text_byte};
ghost use Rattle.sv8_statements.specs.Outcome.{Gives};
ghost use Rattle.sv8_syntax.specs.Parts.{part_len, parts_behind};
ghost use Rattle.sv8_syntax.specs.Reading.{parts, parts_of, operands_of, shaped, behind_annul, flagged, statement_of, label_front, line_of, reading};

use std::alloc::{AllocError, Global};
use sv8_forms::{Shape, annulled, form, shape_of};
use sv8_model::Refused;
use sv8_statements::{
    Label, LineFault, Name, Operand, Read, SYNTAX, Statement, Stmt, is_reference,
};
use sv8_tokens::{Mark, Token, operand_of, tokens};

#[tactic(auto, unfolding(crate::specs::Parts::part_len))]
fn part_len(tokens: &[Token<'_>]) -> usize
    ensures place { result ≡ part_len (views tokens.now) }
    ensures within { result ≤ length tokens.now }
{
    let mut rest = tokens;
    let mut n = 0;
    while let [first, after @ ..] = rest {
        if matches!(first, Token::Mark(Mark::Comma)) {
            break;
        }
        n += 1;
        rest = after;
    }
    n
}

/// The tokens before the first comma, and those behind it.
fn first_part<'t, 'a>(tokens: &'t [Token<'a>]) -> (&'t [Token<'a>], Option<&'t [Token<'a>]>)
    ensures split { parts (views tokens.now) ≡ views result.0.now ∷ parts_behind result.1 }
    ensures shorter { IfSome result.1 (λ behind. length behind.now < length tokens.now) }
{
    let (part, after) = tokens.split_at(part_len(tokens));
    match after {
        [] => (part, None),
        [_, behind @ ..] => (part, Some(behind)),
    }
}

/// The operands, which are the parts between commas.
#[tactic(auto, using(crate::proofs::Parts::parts_of_none, crate::proofs::Parts::parts_of_some))]
fn operands<'a>(alloc: Global, tokens: &[Token<'a>]) -> Read<Vec<Operand<'a>>>
    ensures read { Gives (λ v. operand_views v.items) result (operands_of (parts_of (views tokens.now))) }
    ensures few { IfOk result (λ v. length v.items ≤ length tokens.now + 1) }
{
    let mut out = Vec::new(alloc);
    if tokens.is_empty() {
        return Ok(out);
    }
    let mut rest = Some(tokens);
    while let Some(tokens) = rest {
        let (part, behind) = first_part(tokens);
        let operand = operand_of(part).ok_or(SYNTAX)?;
        out.push(operand)?;
        rest = behind;
    }
    Ok(out)
}

/// The statement of a shape with the operands that these tokens are.
#[tactic(auto, unfolding(crate::specs::Reading::shaped))]
fn shaped(alloc: Global, shape: Shape, tokens: &[Token<'_>]) -> Read<Statement>
    requires few { length tokens.now ≤ 255 }
    ensures { Gives (λ s. s) result (shaped shape (views tokens.now)) }
{
    let operands = operands(alloc, tokens)?;
    form(alloc, shape, &operands)
}

/// The tokens behind `,a`.
#[tactic(auto, unfolding(crate::specs::Reading::behind_annul))]
fn behind_annul<'t, 'a>(tokens: &'t [Token<'a>]) -> Option<&'t [Token<'a>]>
    ensures rest { option_map (λ t. views t.now) result ≡ behind_annul (views tokens.now) }
    ensures shorter { IfSome result (λ t. length t.now ≤ length tokens.now) }
{
    match tokens {
        [Token::Mark(Mark::Comma), Token::Word(b"a"), rest @ ..] => Some(rest),
        _ => None,
    }
}

/// The shape, or where `,a` stands behind the mnemonic the one that annuls, and the operands' tokens.
#[tactic(auto, unfolding(crate::specs::Reading::flagged))]
fn flagged<'t, 'a>(shape: Shape, tokens: &'t [Token<'a>]) -> Option<(Shape, &'t [Token<'a>])>
    ensures value { option_map (λ x. (x.0, views x.1.now)) result ≡ flagged shape (views tokens.now) (behind_annul (views tokens.now)) }
    ensures shorter { IfSome result (λ x. length x.1.now ≤ length tokens.now) }
{
    match behind_annul(tokens) {
        Some(rest) => Some((annulled(shape)?, rest)),
        None => Some((shape, tokens)),
    }
}

#[tactic(auto, unfolding(crate::specs::Reading::statement_of))]
fn statement(alloc: Global, tokens: &[Token<'_>]) -> Read<Option<Statement>>
    requires few { length tokens.now ≤ 255 }
    ensures { Gives (λ s. s) result (statement_of (views tokens.now)) }
{
    match tokens {
        [] => Ok(None),
        [Token::Word(name), rest @ ..] => {
            let shape = shape_of(name).ok_or(SYNTAX)?;
            let (shape, rest) = flagged(shape, rest).ok_or(SYNTAX)?;
            Ok(Some(shaped(alloc, shape, rest)?))
        }
        _ => Err(SYNTAX),
    }
}

/// The label at the front, if any, and the tokens behind it.
#[tactic(auto, unfolding(crate::specs::Reading::label_front))]
fn label_front<'t, 'a>(
    alloc: Global,
    tokens: &'t [Token<'a>],
) -> Result<(Option<Label>, &'t [Token<'a>]), AllocError>
    ensures label { IfOk result (λ x. x.0 ≡ (label_front (views tokens.now)).0) }
    ensures rest { IfOk result (λ x. views x.1.now ≡ (label_front (views tokens.now)).1) }
    ensures shorter { IfOk result (λ x. length x.1.now ≤ length tokens.now) }
{
    match tokens {
        [Token::Word(name), Token::Mark(Mark::Colon), rest @ ..] => {
            if is_reference(name) {
                return Ok((None, tokens));
            }
            let name = Name::new(alloc, name)?;
            Ok((Some(Label::Name(name)), rest))
        }
        [Token::Local(digit), rest @ ..] => Ok((Some(Label::Local(*digit)), rest)),
        _ => Ok((None, tokens)),
    }
}

#[tactic(auto, unfolding(crate::specs::Reading::line_of))]
fn line(alloc: Global, tokens: &[Token<'_>]) -> Read<Stmt>
    requires few { length tokens.now ≤ 255 }
    ensures { Gives (λ s. s) result (line_of (views tokens.now)) }
{
    let (label, rest) = label_front(alloc, tokens)?;
    let statement = statement(alloc, rest)?;
    Ok(Stmt { label, statement })
}

fn is_text_byte(byte: u8) -> bool
    ensures { result ≡ is_text_byte byte }
{
    byte == b'\t' || (b' '..=b'~').contains(&byte)
}

fn is_text(text: &[u8]) -> bool
    ensures { IsTrue result ↔ AllPass is_text_byte text.now }
{
    for byte in text {
        if !is_text_byte(*byte) {
            return false;
        }
    }
    true
}

/// The statement of a line of assembler text, which comes without its line feed (Appendix A).
///
/// The errors are `LineTooLong`, `NotAscii` and `Syntax`, the first of them that applies, and
/// `OutOfMemory` for any text. Values out of range and names that nothing defines are found later. That `reading` is the
/// grammar (`ReadsAs`), and its faults the least ones (`IsFault`), is the law `reading_is_the_grammar` of
/// `sv8_assembler_laws`.
pub fn parse_line(alloc: Global, text: &[u8]) -> Result<Stmt, Refused<LineFault>>
    // A name that the line defines is no reference to a local label, and a label's digit is below 10.
    ensures defines { IfOk result (λ s. Defines s) }
    // The outcome rests on the text alone, unless memory ran out.
    ensures reading { MatchResult result (λ s. reading text.now ≡ Ok s) (ByFault (λ e. reading text.now ≡ Err e)) }
{
    if text.len() > 255 {
        return Err(Refused::By(LineFault::LineTooLong));
    }
    if !is_text(text) {
        return Err(Refused::By(LineFault::NotAscii));
    }
    let tokens = tokens(alloc, text)?;
    line(alloc, &tokens)
}
