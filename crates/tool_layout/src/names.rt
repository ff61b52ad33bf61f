//! Names of keys, and the texts that list them.

ghost use Rattle.std.specs.Prelude.{◌≡◌, ◌⊎◌, [], ◌∷◌, IfErr, IfOk, OnOk, Some, option_map, string_bytes};
ghost use Rattle.std.specs.List.{list_all};
ghost use Rattle.std.specs.Str.{bytes_eq};
ghost use Rattle.warg_crypto.specs.Keys.{public_key_of};
ghost use Rattle.tool_layout.specs.KeyNames.{name_of};
ghost use Rattle.tool_layout.specs.Names.{IsLineAdded, id_if_key, is_passed_over, is_space, key_id_of, line_names, names_by, names_of};
ghost use Rattle.tool_layout.specs.declared.error.NameFault.TheVariants as fault;

use crate::digest::{are_digits, behind_sha256};
use crate::error::{NameFault, NamesParseError};
use crate::word::split_word;
use std::alloc::{AllocError, Global};
use std::marker::Model;
use warg_crypto::signing::{KeyID, KeyParseError, PublicKey};
use warg_printable::printed;

/// A name, and the id of the key that has it.
#[derive(Drop)]
struct Name {
    id: KeyID,
    name: String,
}

impl Model for Name {
    ghost use Rattle.std.specs.Prelude.{string_bytes};
    ghost use Rattle.tool_layout.specs.KeyNames.{KeyName};

    ghost Value = { KeyName };

    ghost view = { λ it. record { id = it.id; name = string_bytes it.name } };
}

impl Name {
    // Whether it is a name of the key of this id.
    fn is_of(&self, id: &str) -> bool
        ensures { result ≡ bytes_eq self.now.id id.now }
    {
        self.id.as_str() == id
    }

    // The name itself.
    fn text(&self) -> &str
        ensures { result.now ≡ self.now.name }
    {
        self.name.as_str()
    }
}

/// The names that keys have for whoever reads: each without hidden characters. The first of several names of one key
/// holds.
#[derive(Drop)]
pub struct Names {
    names: Vec<Name>,
}

impl Model for Names {
    ghost use Rattle.std.specs.Prelude.{List};
    ghost use Rattle.tool_layout.specs.KeyNames.{KeyName};

    ghost Value = { List KeyName };

    ghost view = { λ it. it.names.items };
}

fn is_blank(bytes: &[u8]) -> bool
    ensures { result ≡ list_all is_space bytes.now }
{
    bytes.iter().all(|byte| *byte == b' ')
}

// Whether a line is blank or begins with `#`.
fn is_passed_over(line: &str) -> bool
    ensures { result ≡ is_passed_over line.now }
{
    is_blank(line.as_bytes()) || line.starts_with('#')
}

// The id of the key whose text a word is.
fn id_of_text(alloc: Global, word: &str) -> Result<Option<KeyID>, AllocError>
    ensures { IfOk result (λ id. id ≡ id_if_key (public_key_of word.now)) }
{
    match PublicKey::parse(alloc, word) {
        Ok(key) => Ok(Some(key.fingerprint(alloc)?)),
        Err(KeyParseError::OutOfMemory) => Err(AllocError),
        Err(_) => Ok(None),
    }
}

// The id of the key that a word stands for: the id itself, or that of the key whose text it is.
fn key_id_of(alloc: Global, word: &str) -> Result<Option<KeyID>, AllocError>
    ensures { IfOk result (λ id. id ≡ key_id_of word.now) }
{
    let Some(digits) = behind_sha256(word) else {
        return id_of_text(alloc, word);
    };
    if are_digits(digits) {
        Ok(Some(KeyID::from(String::from_str(alloc, word)?)))
    } else {
        Ok(None)
    }
}

// The name that a text is, for the key of an id.
fn name_for(alloc: Global, id: Option<KeyID>, name: &str) -> Result<Name, NameFault>
    ensures ok { IfOk result (λ it. names_by id name.now ≡ Ok (it ∷ [])) }
    ensures err { IfErr result (λ e. (e ≡ fault.OutOfMemory) ⊎ (names_by id name.now ≡ Err e)) }
{
    let Some(id) = id else {
        return Err(NameFault::NoKey);
    };
    if name.is_empty() {
        return Err(NameFault::NoName);
    }
    Ok(Name {
        id,
        name: printed(alloc, name)?,
    })
}

// The first name of the key of an id.
fn name_of<'a>(names: &'a [Name], id: &str) -> Option<&'a str>
    ensures { option_map (λ it. it.now) result ≡ name_of names.now id.now }
{
    for it in names {
        if it.is_of(id) {
            return Some(it.text());
        }
    }
    None
}

impl Names {
    /// No names.
    pub fn new(alloc: Global) -> Names
        ensures { result ≡ [] }
    {
        Names {
            names: Vec::new(alloc),
        }
    }

    // Adds the name that a line says, if it is not passed over.
    fn add_line(&mut self, alloc: Global, line: &str) -> Result<(), NameFault>
        ensures added { OnOk result (IsLineAdded line.now self.old self.new) }
        ensures err { IfErr result (λ e. (e ≡ fault.OutOfMemory) ⊎ (line_names line.now ≡ Err e)) }
    {
        if is_passed_over(line) {
            return Ok(());
        }
        let (word, name) = split_word(line);
        let id = key_id_of(alloc, word)?;
        let name = name_for(alloc, id, name)?;
        match self.names.push(name) {
            Ok(()) => Ok(()),
            Err(_) => Err(NameFault::OutOfMemory),
        }
    }

    /// The names that a text lists, a line each: a key's id or a key's text, a space, and the name, which is kept as it
    /// is printed. Blank lines and lines that begin with `#` are passed over. An error tells the first line that says
    /// no name.
    pub fn parse(alloc: Global, text: &str) -> Result<Names, NamesParseError>
        ensures ok { IfOk result (λ names. names_of text.now ≡ Ok names) }
        ensures err { IfErr result (λ e. (e.fault ≡ fault.OutOfMemory) ⊎
            (names_of text.now ≡ Err e)) }
    {
        let mut names = Names::new(alloc);
        for (place, line) in text.lines().enumerate() {
            if let Err(fault) = names.add_line(alloc, line) {
                return Err(NamesParseError {
                    line: place + 1,
                    fault,
                });
            }
        }
        Ok(names)
    }

    /// The first name of the key of an id.
    pub fn of(&self, id: &str) -> Option<&str>
        ensures { option_map (λ it. it.now) result ≡ name_of self.now id.now }
    {
        name_of(self.names.as_slice(), id)
    }
}
