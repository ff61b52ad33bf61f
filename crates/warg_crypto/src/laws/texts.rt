//! Texts: a value prints as its text, whatever options it is printed under.

ghost use Rattle.std.specs.Prelude.{◌≡◌};
ghost use Rattle.std.specs.Fmt.{WritesOnOk, WritesStyledOnOk};
ghost use Rattle.warg_crypto.specs.HashText.{algorithm_text, hash_text};
ghost use Rattle.warg_crypto.specs.NamedBytes.{named_bytes_text};

use crate::hash::{AnyHash, Hash, HashAlgorithm, SupportedDigest};
use crate::signing::{KeyID, PublicKey, Signature};
use std::fmt::{Display, Formatter, Result, Write};

/// An algorithm prints as its name.
pub fn print_algorithm<W: Write>(algorithm: &HashAlgorithm, f: &mut Formatter<W>) -> Result
    ensures plain { WritesOnOk W.write_str_gives f.old result (algorithm_text algorithm.now) f.new }
    ensures styled { WritesStyledOnOk W.write_str_gives f.old result
        (algorithm_text algorithm.now) f.new }
{
    algorithm.fmt(f)
}

/// A hash prints as its text.
pub fn print_hash<W: Write>(hash: &AnyHash, f: &mut Formatter<W>) -> Result
    ensures plain { WritesOnOk W.write_str_gives f.old result (hash_text hash.now) f.new }
    ensures styled { WritesStyledOnOk W.write_str_gives f.old result (hash_text hash.now) f.new }
{
    hash.fmt(f)
}

/// A hash whose type names its digest prints as the hash that it is.
pub fn print_typed_hash<D: SupportedDigest, W: Write>(
    hash: &Hash<D>,
    f: &mut Formatter<W>,
) -> Result
    ensures plain { WritesOnOk W.write_str_gives f.old result
        (hash_text (record { algorithm = D.ALGORITHM; bytes = hash.now.bytes })) f.new }
    ensures styled { WritesStyledOnOk W.write_str_gives f.old result
        (hash_text (record { algorithm = D.ALGORITHM; bytes = hash.now.bytes })) f.new }
{
    hash.fmt(f)
}

/// A key id prints as its text.
pub fn print_id<W: Write>(id: &KeyID, f: &mut Formatter<W>) -> Result
    ensures plain { WritesOnOk W.write_str_gives f.old result id.now f.new }
    ensures styled { WritesStyledOnOk W.write_str_gives f.old result id.now f.new }
{
    id.fmt(f)
}

/// A key prints as its text.
pub fn print_key<W: Write>(key: &PublicKey, f: &mut Formatter<W>) -> Result
    ensures plain { WritesOnOk W.write_str_gives f.old result (named_bytes_text key.now) f.new }
    ensures styled { WritesStyledOnOk W.write_str_gives f.old result (named_bytes_text key.now)
        f.new }
{
    key.fmt(f)
}

/// A signature prints as its text.
pub fn print_signature<W: Write>(signature: &Signature, f: &mut Formatter<W>) -> Result
    ensures plain { WritesOnOk W.write_str_gives f.old result (named_bytes_text signature.now)
        f.new }
    ensures styled { WritesStyledOnOk W.write_str_gives f.old result
        (named_bytes_text signature.now) f.new }
{
    signature.fmt(f)
}
