//! Who holds what, and by which of the entries that gave it.
ghost use Rattle.std.specs.Prelude.{◌≡◌, ◌++◌, ◌&&◌, ℕ, List, [], ◌+◌, ◌≤◌, IfOk, OnOk, if◌then◌else◌, vec_len, vec_capacity};
ghost use Rattle.std.specs.Str.{bytes_eq};
ghost use Rattle.indexmap.specs.IndexMap.{IsUnique, index_map_len, spare};
ghost use Rattle.warg_replay.specs.AuditedLog.GrantIndexes.{number_in, number_at, number_over};

use crate::audited_log::link::Link;
use std::alloc::{AllocError, Global};
use warg_crypto::signing::KeyID;
use warg_maps::NameMap;

/// An entry that gave a permission to a key id.
#[derive(Clone, Copy)]
pub(crate) struct GrantEvent {
    pub(crate) place: Link,
    /// The number of the gift by which the entry's signer had the permission: its own, at the log's first entry.
    pub(crate) by: usize,
}

/// A permission that a key id has had.
#[derive(Clone, Copy)]
pub(crate) struct Holding<P> {
    pub(crate) permission: P,
    /// The number of the last gift of it, while it is held.
    pub(crate) given: Option<usize>,
}

/// What each key id has had.
pub(crate) type Holdings<P> = NameMap<KeyID, Vec<Holding<P>>>;

/// The gifts of a log in order, by which they are numbered, and who holds what by which.
#[derive(Drop)]
pub(crate) struct GrantIndex<P: Copy + Eq> {
    pub(crate) gifts: Vec<GrantEvent>,
    pub(crate) holdings: Holdings<P>,
}

/// The number of the gift by which the permission is held.
fn find_number<P: Copy + Eq>(holdings: &[Holding<P>], permission: P) -> Option<usize>
    ensures { result ≡ number_in P.eq holdings.now permission }
{
    for holding in holdings {
        if holding.permission == permission {
            return holding.given;
        }
    }
    None
}

/// Notes the number of the gift by which the permission is held, or that it is not held any more.
fn set_number<P: Copy + Eq>(
    holdings: &mut Vec<Holding<P>>,
    permission: P,
    given: Option<usize>,
) -> Result<(), AllocError>
    ensures { OnOk result ((p : P) → number_in P.eq holdings.new.items p ≡
        (if P.eq permission p then given else number_in P.eq holdings.old.items p)) }
{
    for i in 0..holdings.len() {
        if holdings[i].permission == permission {
            holdings[i] = Holding { permission, given };
            return Ok(());
        }
    }
    holdings.push(Holding { permission, given })?;
    Ok(())
}

/// What the key id has had, in memory of its own.
fn copy_holdings<P: Copy + Eq>(
    alloc: Global,
    holdings: &Holdings<P>,
    key_id: &KeyID,
) -> Result<Vec<Holding<P>>, AllocError>
    ensures { IfOk result (λ copy. (p : P) → number_in P.eq copy.items p ≡
        number_at P.eq holdings.now key_id.now p) }
{
    let mut copy = Vec::new(alloc);
    if let Some(list) = holdings.get(key_id) {
        copy.extend_from_slice(list.as_slice())?;
        return Ok(copy);
    }
    Ok(copy)
}

/// The number of the gift by which the key id holds the permission, where changes lie over the holdings.
pub(crate) fn number_of<P: Copy + Eq>(
    holdings: &Holdings<P>,
    changes: &Holdings<P>,
    key_id: &KeyID,
    permission: P,
) -> Option<usize>
    ensures { result ≡ number_over P.eq holdings.now changes.now key_id.now permission }
{
    if let Some(list) = changes.get(key_id) {
        return find_number(list.as_slice(), permission);
    }
    match holdings.get(key_id) {
        Some(list) => find_number(list.as_slice(), permission),
        None => None,
    }
}

/// Notes in the changes by which gift the key id holds the permission, or that it does not any more.
pub(crate) fn put_number<P: Copy + Eq>(
    alloc: Global,
    holdings: &Holdings<P>,
    changes: &mut Holdings<P>,
    key_id: KeyID,
    permission: P,
    given: Option<usize>,
) -> Result<(), AllocError>
    ensures numbers { OnOk result ((k : List ℕ) (p : P) →
        number_over P.eq holdings.now changes.new k p
        ≡ (if bytes_eq key_id k && P.eq permission p then given else number_over P.eq
        holdings.now changes.old k p)) }
    ensures unique { OnOk result (IsUnique bytes_eq changes.new) }
{
    if let Some(list) = changes.get_mut(&key_id) {
        set_number(list, permission, given)?;
        return Ok(());
    }
    let mut list = copy_holdings(alloc, holdings, &key_id)?;
    set_number(&mut list, permission, given)?;
    changes.insert(key_id, list)?;
    Ok(())
}

impl<P: Copy + Eq> GrantIndex<P> {
    /// Nothing was given.
    pub(crate) fn new(alloc: Global) -> GrantIndex<P>
        ensures gifts { result.gifts.items ≡ [] }
        ensures holdings { result.holdings.entries ≡ [] }
        ensures unique { IsUnique bytes_eq result.holdings }
    {
        GrantIndex {
            gifts: Vec::new(alloc),
            holdings: NameMap::new(alloc),
        }
    }

    /// The number of the gift by which the key id holds the permission, if it does.
    pub(crate) fn number(&self, key_id: &KeyID, permission: P) -> Option<usize>
        ensures { result ≡ number_at P.eq self.now.holdings key_id.now permission }
    {
        match self.holdings.get(key_id) {
            Some(list) => find_number(list.as_slice(), permission),
            None => None,
        }
    }

    /// Makes room for what the draft adds, and changes nothing else.
    pub(crate) fn reserve(&mut self, draft: &GrantIndex<P>) -> Result<(), AllocError>
        ensures gifts { self.new.gifts.items ≡ self.old.gifts.items }
        ensures holdings { self.new.holdings.entries ≡ self.old.holdings.entries }
        ensures room { OnOk result (vec_len self.new.gifts + vec_len draft.now.gifts ≤
            vec_capacity self.new.gifts) }
        ensures keys { OnOk result (index_map_len draft.now.holdings ≤ spare self.new.holdings) }
    {
        self.gifts.reserve(draft.gifts.len())?;
        self.holdings.reserve(draft.holdings.len())
    }

    /// Adds the draft's gifts, and puts its holdings in place.
    pub(crate) fn commit(&mut self, draft: GrantIndex<P>)
        requires room { vec_len self.old.gifts + vec_len draft.gifts ≤ vec_capacity self.old.gifts }
        requires keys { index_map_len draft.holdings ≤ spare self.old.holdings }
        requires unique { IsUnique bytes_eq draft.holdings }
        ensures gifts { self.new.gifts.items ≡ self.old.gifts.items ++ draft.gifts.items }
        ensures holdings { (k : List ℕ) (p : P) → number_at P.eq self.new.holdings k p
            ≡ number_over P.eq self.old.holdings draft.holdings k p }
    {
        let GrantIndex {
            mut gifts,
            mut holdings,
        } = draft;
        self.gifts.append(&mut gifts).unwrap();
        self.holdings.append(&mut holdings).unwrap();
    }
}
