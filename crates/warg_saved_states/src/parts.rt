//! The parts of a text's object, read in one pass: what is asked for, and three maps whose names ascend and that have
//! no fault.
ghost use Rattle.std.specs.Option.{option_map};
ghost use Rattle.std.specs.Prelude.{IfSome, IsTrue, Ok, Some, [], ◌∷◌, suc, ◌<◌, ◌≡◌, ◌≤◌, length};
ghost use Rattle.json.specs.Json.{members, read_key, value};
ghost use Rattle.json.specs.Lex.{tokens};
ghost use Rattle.json.specs.Token as token;
ghost use Rattle.serde_json.specs.Data.{Data, Members, no_members, null, put};
ghost use Rattle.serde_json.specs.Find.{get_member};
ghost use Rattle.serde_json.specs.Read.{converted, of_json, of_members, read};
ghost use Rattle.serde_json.specs.View.{members_view, view};
ghost use Rattle.warg_crypto.specs.Json.Pairs.{names_of, pairs_in, pairs_member, pairs_or_none, plain_pairs};
ghost use Rattle.warg_saved_states.specs.Asked.{AreAskedOf, IsAskedOf, texts};
ghost use Rattle.warg_saved_states.specs.Parts.{AreApart};

use crate::name::SavedName;
use crate::read::{MAX_DEPTH, count_name, is_asked, take_next};
use crate::read_map::next_map;
use crate::value::SavedValue;
use json::{Reader, Scratch, Token};
use serde_json::{Map, Value};
use std::alloc::Global;
use warg_maps::NameMap;

/// Whether the names differ, and none of them is asked for.
fn are_apart(asked: &[&str], first: &str, second: &str, third: &str) -> bool
    ensures { IsTrue result → AreApart (texts asked.now) first.now second.now third.now }
{
    first != second
        && first != third
        && second != third
        && !is_asked(asked, first)
        && !is_asked(asked, second)
        && !is_asked(asked, third)
}

/// The name of the member that comes next, or none at the end of the object. `None`: there is neither.
fn next_name<'a>(reader: &mut Reader<'a>) -> Option<Option<&'a str>>
    ensures { IfSome result (λ name. read_key reader.old
        ≡ Some (option_map (λ s. s.now) name, reader.new)) }
{
    reader.next_key().ok()
}

/// The map of the object that comes next, whose name is counted among those that were found.
fn take_map<K: SavedName, V: SavedValue>(
    alloc: Global,
    reader: &mut Reader<'_>,
    depth: usize,
    name: &str,
    found: &mut Map<String, Value>,
) -> Option<NameMap<K, V>>
    ensures { IfSome result (λ map. (d : Data) × (length reader.new < length reader.old)
        × (converted of_json (value depth reader.old) ≡ Some (d, reader.new))
        × (pairs_in K.key_named V.reads d ≡ Ok (plain_pairs K.plain V.plain map.entries))
        × (length (names_of (members_view found.old.entries)) < 2
        → members_view found.new.entries ≡ put name.now null (members_view found.old.entries))
        × (2 ≤ length (names_of (members_view found.old.entries))
        → members_view found.new.entries ≡ members_view found.old.entries)) }
{
    let Ok(Ok(map)) = next_map::<K, V>(alloc, reader, depth, true) else {
        return None;
    };
    let Ok(()) = count_name(alloc, name, found) else {
        return None;
    };
    Some(map)
}

/// What is asked of the members that come next, up to the end of their object, and the maps of three of them.
fn next_parts<J, U, K, V, L, W>(
    alloc: Global,
    reader: &mut Reader<'_>,
    depth: usize,
    asked: &[&str],
    levels: usize,
    first: &str,
    second: &str,
    third: &str,
) -> Option<
    (
        Map<String, Value>,
        NameMap<J, U>,
        NameMap<K, V>,
        NameMap<L, W>,
    ),
>
where
    J: SavedName,
    U: SavedValue,
    K: SavedName,
    V: SavedValue,
    L: SavedName,
    W: SavedValue,
    ensures { IfSome result (λ p. (ms : Members)
        × (converted (λ js. of_members js no_members)
        (members (value depth) (length reader.old) reader.old) ≡ Some (ms, reader.new))
        × AreAskedOf (texts asked.now) (suc levels) ms (members_view p.0.entries)
        × (pairs_or_none J.key_named U.reads (get_member first.now ms)
        ≡ Ok (plain_pairs J.plain U.plain p.1.entries))
        × (pairs_or_none K.key_named V.reads (get_member second.now ms)
        ≡ Ok (plain_pairs K.plain V.plain p.2.entries))
        × (pairs_or_none L.key_named W.reads (get_member third.now ms)
        ≡ Ok (plain_pairs L.plain W.plain p.3.entries))) }
{
    if !are_apart(asked, first, second, third) {
        return None;
    }
    let mut found = Map::new(alloc);
    let mut firsts = NameMap::new(alloc);
    let mut seconds = NameMap::new(alloc);
    let mut thirds = NameMap::new(alloc);
    'members: while let Some(name) = next_name(reader)? {
        if name == first {
            firsts = take_map::<J, U>(alloc, reader, depth, name, &mut found)?;
        } else if name == second {
            seconds = take_map::<K, V>(alloc, reader, depth, name, &mut found)?;
        } else if name == third {
            thirds = take_map::<L, W>(alloc, reader, depth, name, &mut found)?;
        } else {
            let Ok(()) = take_next(alloc, reader, depth, asked, levels, name, &mut found) else {
                return None;
            };
        }
    }
    Some((found, firsts, seconds, thirds))
}

/// A reader of the text that is behind the brace with which its object begins.
fn opened<'a>(text: &'a str, scratch: &'a mut Scratch<Global>) -> Option<Reader<'a>>
    ensures { IfSome result (λ reader. tokens text.now ≡ token.Token.begin_object ∷ reader) }
{
    let mut reader = Reader::new(text, scratch).ok()?;
    let Some(Token::BeginObject) = reader.next() else {
        return None;
    };
    Some(reader)
}

/// Whether no token is left.
fn is_over(reader: &mut Reader<'_>) -> bool
    ensures { IsTrue result → reader.old ≡ [] }
{
    reader.next().is_none()
}

/// What is asked of the text's object: the members of those names, as far as that many objects inside one another below
/// it, and the maps of three others. `None`: the text is no such object, a name of a map does not ascend, a value of
/// one has a fault, or memory ran out.
pub fn parts_in_text<J, U, K, V, L, W>(
    alloc: Global,
    text: &str,
    asked: &[&str],
    levels: usize,
    first: &str,
    second: &str,
    third: &str,
) -> Option<(Value, NameMap<J, U>, NameMap<K, V>, NameMap<L, W>)>
where
    J: SavedName,
    U: SavedValue,
    K: SavedName,
    V: SavedValue,
    L: SavedName,
    W: SavedValue,
    ensures { IfSome result (λ p. (d : Data) × (read text.now ≡ Some d)
        × IsAskedOf (texts asked.now) (suc levels) d (view p.0)
        × (pairs_member J.key_named U.reads first.now d
        ≡ Ok (plain_pairs J.plain U.plain p.1.entries))
        × (pairs_member K.key_named V.reads second.now d
        ≡ Ok (plain_pairs K.plain V.plain p.2.entries))
        × (pairs_member L.key_named W.reads third.now d
        ≡ Ok (plain_pairs L.plain W.plain p.3.entries))) }
{
    let mut scratch = Scratch::new(alloc);
    let mut reader = opened(text, &mut scratch)?;
    let (found, firsts, seconds, thirds) = next_parts::<J, U, K, V, L, W>(
        alloc,
        &mut reader,
        MAX_DEPTH - 1,
        asked,
        levels,
        first,
        second,
        third,
    )?;
    if !is_over(&mut reader) {
        return None;
    }
    Some((Value::Object(found), firsts, seconds, thirds))
}
