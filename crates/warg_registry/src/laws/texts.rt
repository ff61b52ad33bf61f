//! Texts: an id and a name print as their text, whatever options they are printed under.

ghost use Rattle.std.specs.Fmt.{WritesOnOk, WritesStyledOnOk};
ghost use Rattle.warg_crypto.specs.HashText.{hash_text};

use crate::{LogId, PackageName};
use std::fmt::{Display, Formatter, Result, Write};

/// The id of a log prints as the text of its hash.
pub fn print_log_id<W: Write>(id: &LogId, f: &mut Formatter<W>) -> Result
    ensures plain { WritesOnOk W.write_str_gives f.old result (hash_text id.now.hash) f.new }
    ensures styled { WritesStyledOnOk W.write_str_gives f.old result (hash_text id.now.hash) f.new }
{
    id.fmt(f)
}

/// A package name prints as its text.
pub fn print_package_name<W: Write>(name: &PackageName, f: &mut Formatter<W>) -> Result
    ensures plain { WritesOnOk W.write_str_gives f.old result name.now f.new }
    ensures styled { WritesStyledOnOk W.write_str_gives f.old result name.now f.new }
{
    name.fmt(f)
}
