//! Operands, each from all of its tokens; a function named front reads the front and gives the rest.

ghost use Rattle.std.specs.Prelude.{◌≡◌, ◌∷◌, Some, option_map};
ghost use Rattle.sv8_tokens.specs.Token.{views};
ghost use Rattle.sv8_tokens.specs.declared.token.Mark.TheVariants as mark;
ghost use Rattle.sv8_tokens.specs.Token as token;
ghost use Rattle.sv8_statements.specs.Operand.{expr_view, imm_view, source_view, address_view, operand_view};
ghost use Rattle.sv8_tokens.specs.Reading.{expr_front, behind_paren, parenthesized_front, low_front, value_front, imm_front, source_front, ended, behind_immediate, address_front, closed, plain_operand, high_operand, bracketed_operand, marked_operand, operand_of};

use crate::token::{Mark, Percent, Token};
use sv8_statements::{Address, ExprRef, ImmRef, Operand, RegOrImmRef};

#[tactic(auto, unfolding(crate::specs::Reading::expr_front))]
fn behind_minus<'t, 'a>(tokens: &'t [Token<'a>]) -> Option<(ExprRef<'a>, &'t [Token<'a>])>
    ensures { option_map (λ x. (expr_view x.0, views x.1.now)) result ≡ expr_front (token.Mark mark.Minus ∷ views tokens.now) }
{
    match tokens {
        [Token::Number(n), rest @ ..] => Some((ExprRef::Minus(*n), rest)),
        _ => None,
    }
}

#[tactic(auto, unfolding(crate::specs::Reading::expr_front))]
fn behind_word<'t, 'a>(word: &'a [u8], tokens: &'t [Token<'a>]) -> (ExprRef<'a>, &'t [Token<'a>])
    ensures { Some (expr_view result.0, views result.1.now) ≡ expr_front (token.Word word.now ∷ views tokens.now) }
{
    match tokens {
        [Token::Mark(Mark::Plus), Token::Number(n), rest @ ..] => (ExprRef::Plus(word, *n), rest),
        [Token::Mark(Mark::Minus), Token::Number(n), rest @ ..] => {
            (ExprRef::Less(word, *n), rest)
        }
        _ => (ExprRef::Name(word), tokens),
    }
}

#[tactic(auto, unfolding(crate::specs::Reading::expr_front))]
fn expr_front<'t, 'a>(tokens: &'t [Token<'a>]) -> Option<(ExprRef<'a>, &'t [Token<'a>])>
    ensures { option_map (λ x. (expr_view x.0, views x.1.now)) result ≡ expr_front (views tokens.now) }
{
    match tokens {
        [Token::Number(n), rest @ ..] => Some((ExprRef::Number(*n), rest)),
        [Token::Mark(Mark::Minus), rest @ ..] => behind_minus(rest),
        [Token::Word(w), rest @ ..] => Some(behind_word(w, rest)),
        _ => None,
    }
}

fn behind_paren<'t, 'a>(tokens: &'t [Token<'a>]) -> Option<&'t [Token<'a>]>
    ensures { option_map (λ t. views t.now) result ≡ behind_paren (views tokens.now) }
{
    match tokens {
        [Token::Mark(Mark::CloseParen), rest @ ..] => Some(rest),
        _ => None,
    }
}

#[tactic(auto, unfolding(crate::specs::Reading::parenthesized_front))]
fn parenthesized_front<'t, 'a>(tokens: &'t [Token<'a>]) -> Option<(ExprRef<'a>, &'t [Token<'a>])>
    ensures { option_map (λ x. (expr_view x.0, views x.1.now)) result ≡ parenthesized_front (views tokens.now) }
{
    let [Token::Mark(Mark::OpenParen), inner @ ..] = tokens else {
        return None;
    };
    let (value, after) = expr_front(inner)?;
    let rest = behind_paren(after)?;
    Some((value, rest))
}

fn low_front<'t, 'a>(tokens: &'t [Token<'a>]) -> Option<(ImmRef<'a>, &'t [Token<'a>])>
    ensures { option_map (λ x. (imm_view x.0, views x.1.now)) result ≡ low_front (views tokens.now) }
{
    let (value, rest) = parenthesized_front(tokens)?;
    Some((ImmRef::Low(value), rest))
}

fn value_front<'t, 'a>(tokens: &'t [Token<'a>]) -> Option<(ImmRef<'a>, &'t [Token<'a>])>
    ensures { option_map (λ x. (imm_view x.0, views x.1.now)) result ≡ value_front (views tokens.now) }
{
    let (value, rest) = expr_front(tokens)?;
    Some((ImmRef::Value(value), rest))
}

#[tactic(auto, unfolding(crate::specs::Reading::imm_front))]
fn imm_front<'t, 'a>(tokens: &'t [Token<'a>]) -> Option<(ImmRef<'a>, &'t [Token<'a>])>
    ensures { option_map (λ x. (imm_view x.0, views x.1.now)) result ≡ imm_front (views tokens.now) }
{
    match tokens {
        [Token::Percent(Percent::Low), inner @ ..] => low_front(inner),
        _ => value_front(tokens),
    }
}

#[tactic(auto, unfolding(crate::specs::Reading::source_front))]
fn source_front<'t, 'a>(tokens: &'t [Token<'a>]) -> Option<(RegOrImmRef<'a>, &'t [Token<'a>])>
    ensures { option_map (λ x. (source_view x.0, views x.1.now)) result ≡ source_front (views tokens.now) }
{
    if let [Token::Percent(Percent::Register(r)), rest @ ..] = tokens {
        Some((RegOrImmRef::Register(*r), rest))
    } else {
        let (value, rest) = imm_front(tokens)?;
        Some((RegOrImmRef::Immediate(value), rest))
    }
}

#[tactic(auto, unfolding(crate::specs::Reading::behind_immediate))]
fn behind_immediate<'t, 'a>(
    imm: ImmRef<'a>,
    tokens: &'t [Token<'a>],
) -> (Address<'a>, &'t [Token<'a>])
    ensures address { address_view result.0 ≡ (behind_immediate (imm_view imm.entry) (views tokens.now)).0 }
    ensures rest { views result.1.now ≡ (behind_immediate (imm_view imm.entry) (views tokens.now)).1 }
{
    match tokens {
        [
            Token::Mark(Mark::Plus),
            Token::Percent(Percent::Register(r)),
            rest @ ..,
        ] => (Address::After(imm, *r), rest),
        _ => (Address::One(RegOrImmRef::Immediate(imm)), tokens),
    }
}

#[tactic(auto, unfolding(crate::specs::Reading::address_front))]
fn address_front<'t, 'a>(tokens: &'t [Token<'a>]) -> Option<(Address<'a>, &'t [Token<'a>])>
    ensures { option_map (λ x. (address_view x.0, views x.1.now)) result ≡ address_front (views tokens.now) }
{
    match tokens {
        [
            Token::Percent(Percent::Register(r)),
            Token::Mark(Mark::Plus),
            behind @ ..,
        ] => {
            let (source, rest) = source_front(behind)?;
            Some((Address::Sum(*r, source), rest))
        }
        [
            Token::Percent(Percent::Register(r)),
            Token::Mark(Mark::Minus),
            Token::Number(n),
            rest @ ..,
        ] => Some((Address::Less(*r, *n), rest)),
        [Token::Percent(Percent::Register(r)), rest @ ..] => {
            Some((Address::One(RegOrImmRef::Register(*r)), rest))
        }
        _ => {
            let (imm, behind) = imm_front(tokens)?;
            Some(behind_immediate(imm, behind))
        }
    }
}

#[tactic(auto, unfolding(crate::specs::Reading::closed))]
fn closed<'a>(address: Address<'a>, tokens: &[Token<'a>]) -> Option<Operand<'a>>
    ensures { option_map operand_view result ≡ closed (address_view address.entry) (views tokens.now) }
{
    match tokens {
        [Token::Mark(Mark::CloseBracket)] => Some(Operand::Bracketed(address)),
        [Token::Mark(Mark::CloseBracket), Token::Number(n)] => {
            Some(Operand::Alternate(address, *n))
        }
        _ => None,
    }
}

#[tactic(auto, unfolding(crate::specs::Reading::bracketed_operand))]
fn bracketed_operand<'a>(tokens: &[Token<'a>]) -> Option<Operand<'a>>
    ensures { option_map operand_view result ≡ bracketed_operand (views tokens.now) }
{
    let (address, rest) = address_front(tokens)?;
    closed(address, rest)
}

/// The operand that was read, if nothing is left.
fn only<'a>(operand: Operand<'a>, rest: &[Token<'a>]) -> Option<Operand<'a>>
    ensures { option_map operand_view result ≡ ended (operand_view operand.entry, views rest.now) }
{
    if rest.is_empty() { Some(operand) } else { None }
}

#[tactic(auto, unfolding(crate::specs::Reading::high_operand))]
fn high_operand<'a>(tokens: &[Token<'a>]) -> Option<Operand<'a>>
    ensures { option_map operand_view result ≡ high_operand (views tokens.now) }
{
    let (value, rest) = parenthesized_front(tokens)?;
    only(Operand::High(value), rest)
}

#[tactic(auto, unfolding(crate::specs::Reading::plain_operand))]
fn plain_operand<'a>(tokens: &[Token<'a>]) -> Option<Operand<'a>>
    ensures { option_map operand_view result ≡ plain_operand (views tokens.now) }
{
    let (address, rest) = address_front(tokens)?;
    only(Operand::Plain(address), rest)
}

#[tactic(auto, unfolding(crate::specs::Reading::marked_operand))]
fn marked_operand<'a>(tokens: &[Token<'a>]) -> Option<Operand<'a>>
    ensures { option_map operand_view result ≡ marked_operand (views tokens.now) }
{
    match tokens {
        [Token::Mark(Mark::OpenBracket), inner @ ..] => bracketed_operand(inner),
        [Token::Percent(Percent::High), inner @ ..] => high_operand(inner),
        [Token::Percent(Percent::State(s))] => Some(Operand::State(*s)),
        [Token::Quoted(q)] => Some(Operand::Quoted(q)),
        _ => None,
    }
}

/// The operand that these tokens are.
#[tactic(auto, unfolding(crate::specs::Reading::operand_of))]
pub fn operand_of<'a>(tokens: &[Token<'a>]) -> Option<Operand<'a>>
    ensures { option_map operand_view result ≡ operand_of (views tokens.now) }
{
    match marked_operand(tokens) {
        None => plain_operand(tokens),
        found => found,
    }
}
