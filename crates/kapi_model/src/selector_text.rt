//! A label selector from its text (Kubernetes, 'Labels and Selectors', 'List and watch filtering').
ghost use Rattle.std.specs.Prelude.{◌≡◌, ◌<◌, ◌≤◌, ◌∷◌, [], Ok, false, length, IfOk, IfSome};
ghost use Rattle.std.specs.List.{list_all};
ghost use Rattle.std.specs.Option.{option_copied};
ghost use Rattle.kapi_text.specs.ResultIs.{ResultIs};
ghost use Rattle.kapi_model.specs.Names.{is_label_value};
ghost use Rattle.kapi_model.specs.Private.SelectorSteps as steps;
ghost use Rattle.kapi_model.specs.Private.SelectorSteps.{pieces_left, value_and};
ghost use Rattle.kapi_model.specs.SelectorText as meaning;
ghost use Rattle.kapi_model.specs.SelectorText.{fault_of, selector_of};

use crate::names::{check_label_key, check_label_value};
use crate::selector::{Operator, Requirement, Selector};
use crate::selector_error::SelectorError;
use crate::selector_token::Token;
use crate::selector_tokens::tokens;
use kapi_text::{Sequence, Text};
use std::alloc::Global;

impl Selector {
    /// The selector that a text is: requirements parted by commas, as `a=b,c!=d,e in (f,g),h notin (i),j,!k`. Each
    /// becomes one of the match expressions, in order. The empty text requires nothing.
    #[tactic(auto, unfolding(crate::specs::SelectorText::selector_of))]
    pub fn parse(alloc: Global, text: &str) -> Result<Selector, SelectorError>
        ensures { ResultIs fault_of (λ s. s) result (selector_of text.now) }
    {
        let tokens = tokens(alloc, text)?;
        let requirements = all_required(alloc, tokens.as_slice())?;
        Ok(Selector {
            match_labels: Sequence::new(Vec::new(alloc)),
            match_expressions: Sequence::new(requirements),
        })
    }
}

/// What all tokens require.
fn all_required(alloc: Global, tokens: &[Token<'_>]) -> Result<Vec<Requirement>, SelectorError>
    ensures { ResultIs fault_of (λ v. v.items) result (meaning.all_required tokens.now) }
{
    if tokens.is_empty() {
        return Ok(Vec::new(alloc));
    }
    requirements(alloc, tokens)
}

/// The requirements between the commas outside of parentheses.
fn requirements(alloc: Global, tokens: &[Token<'_>]) -> Result<Vec<Requirement>, SelectorError>
    ensures { ResultIs fault_of (λ v. v.items) result (meaning.requirements (meaning.pieces false tokens.now)) }
{
    let mut requirements = Vec::new(alloc);
    let mut rest = Some(tokens);
    while let Some(left) = rest {
        let (piece, behind) = first_piece(left);
        requirements.push(requirement(alloc, piece)?)?;
        rest = behind;
    }
    Ok(requirements)
}

/// The tokens before the first comma outside of parentheses, and the tokens behind it, if there is one.
fn first_piece<'a, 'b>(tokens: &'b [Token<'a>]) -> (&'b [Token<'a>], Option<&'b [Token<'a>]>)
    ensures parted { meaning.pieces false tokens.now ≡ result.0.now ∷ pieces_left (option_copied result.1) }
    ensures shorter { IfSome result.1 (λ behind. length behind.now < length tokens.now) }
{
    let mut inside = false;
    for (index, token) in tokens.iter().enumerate() {
        if is_parting(inside, token) {
            return (&tokens[..index], Some(&tokens[index + 1..]));
        }
        inside = is_inside(inside, token);
    }
    (tokens, None)
}

/// Whether the tokens behind a token are in parentheses, if the token may be.
fn is_inside(inside: bool, token: &Token<'_>) -> bool
    ensures { result ≡ meaning.is_inside inside token.now }
{
    match token {
        Token::Open => true,
        Token::Close => false,
        _ => inside,
    }
}

/// Whether a token parts requirements: a comma outside of parentheses.
fn is_parting(inside: bool, token: &Token<'_>) -> bool
    ensures { result ≡ meaning.is_parting inside token.now }
{
    match token {
        Token::Comma => !inside,
        _ => false,
    }
}

/// What the tokens of one requirement require.
#[tactic(auto, unfolding(crate::specs::SelectorText::requirement))]
fn requirement(alloc: Global, tokens: &[Token<'_>]) -> Result<Requirement, SelectorError>
    ensures { ResultIs fault_of (λ r. r) result (meaning.requirement tokens.now) }
{
    match tokens {
        [first, rest @ ..] => match first {
            Token::Word(key) => behind_key(alloc, key.as_str(), rest),
            Token::Not => without(alloc, only_word(rest)),
            _ => Err(SelectorError::Syntax),
        },
        [] => Err(SelectorError::Syntax),
    }
}

/// What `!` requires of the key behind it, if there is one.
fn without(alloc: Global, key: Option<&str>) -> Result<Requirement, SelectorError>
    ensures { ResultIs fault_of (λ r. r) result (meaning.without (option_copied key.entry)) }
{
    match key {
        Some(key) => checked(alloc, key, Operator::DoesNotExist, Vec::new(alloc)),
        None => Err(SelectorError::Syntax),
    }
}

/// What the tokens behind a key require of it.
#[tactic(auto, unfolding(crate::specs::SelectorText::behind_key))]
fn behind_key(alloc: Global, key: &str, tokens: &[Token<'_>]) -> Result<Requirement, SelectorError>
    ensures { ResultIs fault_of (λ r. r) result (meaning.behind_key key.now tokens.now) }
{
    match tokens {
        [first, rest @ ..] => match first {
            Token::Equals => equality(alloc, key, Operator::In, rest),
            Token::NotEquals => equality(alloc, key, Operator::NotIn, rest),
            Token::Word(word) => set_based(alloc, key, word.as_str(), rest),
            _ => Err(SelectorError::Syntax),
        },
        [] => checked(alloc, key, Operator::Exists, Vec::new(alloc)),
    }
}

/// What `=`, `==` or `!=` and a value require of a key.
fn equality(
    alloc: Global,
    key: &str,
    operator: Operator,
    tokens: &[Token<'_>],
) -> Result<Requirement, SelectorError>
    ensures { ResultIs fault_of (λ r. r) result (meaning.equality key.now operator tokens.now) }
{
    let values = one_value(alloc, tokens)?;
    checked(alloc, key, operator, values)
}

/// What a word and the tokens behind it require of a key: `(` has to follow.
fn set_based(
    alloc: Global,
    key: &str,
    word: &str,
    tokens: &[Token<'_>],
) -> Result<Requirement, SelectorError>
    ensures { ResultIs fault_of (λ r. r) result (meaning.set_based key.now word.now tokens.now) }
{
    match tokens {
        [first, rest @ ..] => match first {
            Token::Open => membership(alloc, key, word, rest),
            _ => Err(SelectorError::Syntax),
        },
        [] => Err(SelectorError::Syntax),
    }
}

/// What `in` or `notin` and the values behind `(` require of a key.
fn membership(
    alloc: Global,
    key: &str,
    word: &str,
    tokens: &[Token<'_>],
) -> Result<Requirement, SelectorError>
    ensures { ResultIs fault_of (λ r. r) result (meaning.membership key.now word.now tokens.now) }
{
    let operator = named(word)?;
    let values = listed(alloc, tokens)?;
    checked(alloc, key, operator, values)
}

/// The operator that a word names before `(`.
fn named(word: &str) -> Result<Operator, SelectorError>
    ensures { ResultIs fault_of (λ o. o) result (meaning.named word.now) }
{
    match word {
        "in" => Ok(Operator::In),
        "notin" => Ok(Operator::NotIn),
        _other => Err(SelectorError::Syntax),
    }
}

/// The value behind `=`, `==` or `!=`, which may be empty.
fn one_value(alloc: Global, tokens: &[Token<'_>]) -> Result<Vec<Text>, SelectorError>
    ensures { ResultIs fault_of (λ v. v.items) result (meaning.one_value tokens.now) }
{
    match tokens {
        [_first, ..] => sole(alloc, only_word(tokens)),
        [] => only(alloc, ""),
    }
}

/// The list of the one value that a word is.
fn sole(alloc: Global, value: Option<&str>) -> Result<Vec<Text>, SelectorError>
    ensures { ResultIs fault_of (λ v. v.items) result (meaning.sole (option_copied value.entry)) }
{
    match value {
        Some(value) => only(alloc, value),
        None => Err(SelectorError::Syntax),
    }
}

/// The word that all the tokens are, if they are one.
fn only_word<'a>(tokens: &[Token<'a>]) -> Option<&'a str>
    ensures { option_copied result ≡ meaning.only_word tokens.now }
{
    match tokens {
        [first, rest @ ..] => { if rest.is_empty() { first.word() } else { None } }
        [] => None,
    }
}

/// The list of one value.
fn only(alloc: Global, value: &str) -> Result<Vec<Text>, SelectorError>
    ensures { ResultIs fault_of (λ v. v.items) result (Ok (value.now ∷ [])) }
{
    let mut values = Vec::new(alloc);
    values.push(Text::copy_of(alloc, value)?)?;
    Ok(values)
}

/// The values behind `(`, parted by commas, up to the `)` that ends the requirement. Each may be empty.
fn listed(alloc: Global, tokens: &[Token<'_>]) -> Result<Vec<Text>, SelectorError>
    ensures { ResultIs fault_of (λ v. v.items) result (meaning.listed tokens.now) }
{
    let mut values = Vec::new(alloc);
    let mut rest = Some(tokens);
    while let Some(left) = rest {
        let (value, behind) = front_value(left);
        values.push(Text::copy_of(alloc, value)?)?;
        rest = behind_value(behind)?;
    }
    Ok(values)
}

/// The value at the front of the tokens, which is empty where they begin with no word, and the tokens behind it.
fn front_value<'a, 'b>(tokens: &'b [Token<'a>]) -> (&'a str, &'b [Token<'a>])
    ensures split { meaning.listed tokens.now ≡ value_and result.0.now result.1.now }
    ensures no_longer { length result.1.now ≤ length tokens.now }
{
    match tokens {
        [first, behind @ ..] => match first.word() {
            Some(value) => (value, behind),
            None => ("", tokens),
        },
        [] => ("", tokens),
    }
}

/// The tokens behind a value: those of other values behind a comma, or none behind the `)` that ends the requirement.
fn behind_value<'a, 'b>(tokens: &'b [Token<'a>]) -> Result<Option<&'b [Token<'a>]>, SelectorError>
    ensures split { ResultIs fault_of option_copied result (steps.behind_value tokens.now) }
    ensures shorter { IfOk result (λ o. IfSome o (λ left. length left.now < length tokens.now)) }
{
    match tokens {
        [first, left @ ..] => match first {
            Token::Comma => Ok(Some(left)),
            Token::Close if left.is_empty() => Ok(None),
            _ => Err(SelectorError::Syntax),
        },
        [] => Err(SelectorError::Syntax),
    }
}

/// A requirement whose key and values obey the rules of labels.
fn checked(
    alloc: Global,
    key: &str,
    operator: Operator,
    values: Vec<Text>,
) -> Result<Requirement, SelectorError>
    ensures { ResultIs fault_of (λ r. r) result (meaning.checked key.now operator values.items) }
{
    if check_label_key(key) && are_values(values.as_slice()) {
        Ok(Requirement {
            key: Text::copy_of(alloc, key)?,
            operator,
            values: Sequence::new(values),
        })
    } else {
        Err(SelectorError::Syntax)
    }
}

fn are_values(values: &[Text]) -> bool
    ensures { result ≡ list_all is_label_value values.now }
{
    values.iter().all(|value| check_label_value(value.as_str()))
}
