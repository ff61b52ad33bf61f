//! What the entries of a record mention.

ghost use Rattle.std.specs.Prelude.{◌≡◌, [], ◌∷◌, Option, IfOk, OnOk};
ghost use Rattle.std.specs.List.{filter_map};
ghost use Rattle.indexmap.specs.IndexSet.{insert_all};
ghost use Rattle.warg_envelope.specs.Mentions.{distinct};

use std::alloc::{AllocError, Global};
use std::hash::Hash;
use warg_maps::NameSet;

/// An entry that may mention something.
pub(crate) trait Mention {
    type Item: Copy + Ord + Hash;

    // What the entry mentions.
    ghost mention_of: { Self → Option Self.Item };

    fn mention(&self) -> Option<Self::Item>
        ensures { result ≡ mention_of self.now };
}

// Inserts what the entry mentions.
fn insert_mention<E: Mention>(items: &mut NameSet<E::Item>, entry: &E) -> Result<(), AllocError>
    ensures { OnOk result (items.new.keys ≡ insert_all E.Item.eq items.old.keys
        (filter_map E.mention_of (entry.now ∷ []))) }
{
    if let Some(item) = entry.mention() {
        items.insert(item)?;
    }
    Ok(())
}

/// What the entries mention, each once, by first mention.
pub(crate) fn mentions<E: Mention>(
    alloc: Global,
    entries: &[E],
) -> Result<NameSet<E::Item>, AllocError>
    ensures { IfOk result (λ s. s.keys ≡ distinct E.Item.eq (filter_map E.mention_of entries.now)) }
{
    let mut items = NameSet::new(alloc);
    for entry in entries {
        insert_mention(&mut items, entry)?;
    }
    Ok(items)
}
