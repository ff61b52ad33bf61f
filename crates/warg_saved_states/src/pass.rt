//! Values of a text that are passed over: their grammar is checked, and nothing is made of them.
ghost use Rattle.std.specs.Prelude.{MatchResult, None, OnOk, Some, ◌<◌, ◌≡◌, ◌∷◌, length};
ghost use Rattle.json.specs.Reads.{token_of};
ghost use Rattle.warg_saved_states.specs.Passed.{passed, passed_items, passed_members};

use crate::number::number_of;
use json::{Invalid, Reader, Token};

/// Passes over the value that begins with the token, whose arrays and objects may nest that deep.
#[cycle(pass)]
#[inline(always)]
pub(crate) fn pass_from(
    token: Token<'_>,
    reader: &mut Reader<'_>,
    depth: usize,
) -> Result<(), Invalid>
    ensures value { MatchResult result
        (λ _. passed depth (token_of token.entry ∷ reader.old) ≡ Some reader.new)
        (λ _. passed depth (token_of token.entry ∷ reader.old) ≡ None) }
    ensures shorter { OnOk result (length reader.new < length (token_of token.entry ∷ reader.old)) }
{
    match token {
        Token::String(_) | Token::Bool(_) | Token::Null => Ok(()),
        Token::Number(text) => match number_of(text) {
            Some(_) => Ok(()),
            None => Err(Invalid),
        },
        Token::EndObject | Token::EndArray | Token::Key(_) | Token::Bad => Err(Invalid),
        Token::BeginArray => if depth == 0 {
            Err(Invalid)
        } else {
            pass_items(reader, depth - 1)
        },
        Token::BeginObject => if depth == 0 {
            Err(Invalid)
        } else {
            pass_members(reader, depth - 1)
        },
    }
}

/// Passes over the value that comes next.
#[cycle(pass)]
#[inline(always)]
pub(crate) fn pass_value(reader: &mut Reader<'_>, depth: usize) -> Result<(), Invalid>
    ensures value { MatchResult result (λ _. passed depth reader.old ≡ Some reader.new)
        (λ _. passed depth reader.old ≡ None) }
    ensures shorter { OnOk result (length reader.new < length reader.old) }
{
    let token = reader.next().ok_or(Invalid)?;
    pass_from(token, reader, depth)
}

/// Passes over the items that come next, up to the end of their array.
#[cycle(pass)]
#[inline(never)]
pub(crate) fn pass_items(reader: &mut Reader<'_>, depth: usize) -> Result<(), Invalid>
    ensures value { MatchResult result (λ _. passed_items depth reader.old ≡ Some reader.new)
        (λ _. passed_items depth reader.old ≡ None) }
    ensures shorter { OnOk result (length reader.new < length reader.old) }
{
    'items: while !reader.take_end_array() {
        pass_value(reader, depth)?;
    }
    Ok(())
}

/// Passes over the members that come next, up to the end of their object.
#[cycle(pass)]
#[inline(never)]
pub(crate) fn pass_members(reader: &mut Reader<'_>, depth: usize) -> Result<(), Invalid>
    ensures value { MatchResult result (λ _. passed_members depth reader.old ≡ Some reader.new)
        (λ _. passed_members depth reader.old ≡ None) }
    ensures shorter { OnOk result (length reader.new < length reader.old) }
{
    'members: while let Some(_) = reader.next_key()? {
        pass_value(reader, depth)?;
    }
    Ok(())
}
