//! What a record adds to a grant index, worked out beside it.
ghost use Rattle.std.specs.Prelude.{◌≡◌, ◌+◌, ◌<◌, ◌≤◌, ◌++◌, [], ◌∷◌, true, List, length, map, reverse, IfOk, OnOk, vec_len, vec_capacity};
ghost use Rattle.std.specs.Str.{bytes_eq};
ghost use Rattle.indexmap.specs.IndexMap.{IsUnique, index_map_len, spare};
ghost use Rattle.warg_envelope.specs.ReadingWords.{ContentsMatchBytes};
ghost use Rattle.warg_envelope.specs.EnvelopeData.{EnvelopeData};
ghost use Rattle.warg_replay.specs.declared.audited_log.link.Link.{Link};
ghost use Rattle.warg_replay.specs.AuditedLog.Chains.{entries_of};
ghost use Rattle.warg_replay.specs.AuditedLog.GrantIndexes.{number_at, number_over, IsTrail, IsEventAdded, AreApplied, IsGrantIndex, GivesOnlyHeld};

use crate::audited_log::grant_index::{GrantEvent, GrantIndex, Holdings, number_of, put_number};
use crate::audited_log::link::Link;
use crate::{Effect, Validator};
use std::alloc::{AllocError, Global};
use warg_crypto::signing::KeyID;
use warg_envelope::ProtoEnvelope;

/// The number of the gift by which the signer holds the permission of each event, if it does.
fn signer_numbers<P: Copy + Eq>(
    alloc: Global,
    holdings: &Holdings<P>,
    changes: &Holdings<P>,
    signer: &KeyID,
    events: &[(KeyID, P, Effect)],
) -> Result<Vec<Option<usize>>, AllocError>
    ensures { IfOk result (λ numbers. numbers.items ≡ map
        (λ x. number_over P.eq holdings.now changes.now signer.now x.1) events.now) }
{
    let mut numbers = Vec::new(alloc);
    for event in events {
        numbers.push(number_of(holdings, changes, signer, event.1))?;
    }
    Ok(numbers)
}

/// Adds an event of the entry at the place to the draft. `by` is the number by which its signer holds the
/// permission.
fn add_event<P: Copy + Eq>(
    alloc: Global,
    grant_index: &GrantIndex<P>,
    draft: &mut GrantIndex<P>,
    place: Link,
    by: Option<usize>,
    event: &(KeyID, P, Effect),
) -> Result<(), AllocError>
    ensures added { OnOk result (IsEventAdded P.eq place by event.now
        (grant_index.now.gifts.items ++ draft.old.gifts.items)
        (number_over P.eq grant_index.now.holdings draft.old.holdings)
        (grant_index.now.gifts.items ++ draft.new.gifts.items)
        (number_over P.eq grant_index.now.holdings draft.new.holdings)) }
    ensures unique { OnOk result (IsUnique bytes_eq draft.old.holdings →
        IsUnique bytes_eq draft.new.holdings) }
{
    let key_id = event.0.try_clone()?;
    match event.2 {
        Effect::Gives => {
            let Some(number) = grant_index.gifts.len().checked_add(draft.gifts.len()) else {
                return Err(AllocError);
            };
            let by = by.unwrap_or(number);
            draft.gifts.push(GrantEvent { place, by })?;
            put_number(
                alloc,
                &grant_index.holdings,
                &mut draft.holdings,
                key_id,
                event.1,
                Some(number),
            )?;
        }
        Effect::Takes => {
            put_number(
                alloc,
                &grant_index.holdings,
                &mut draft.holdings,
                key_id,
                event.1,
                None,
            )?;
        }
        Effect::Nothing => {}
    }
    Ok(())
}

/// Adds the events of the entry at the place to the draft. What its signer holds is asked before any is added.
fn add_entry<P: Copy + Eq>(
    alloc: Global,
    grant_index: &GrantIndex<P>,
    draft: &mut GrantIndex<P>,
    place: Link,
    signer: &KeyID,
    events: &[(KeyID, P, Effect)],
) -> Result<(), AllocError>
    requires { (p q : P) → P.eq p q ≡ true → p ≡ q }
    ensures applied { OnOk result (AreApplied P.eq place signer.now events.now
        (grant_index.now.gifts.items ++ draft.old.gifts.items)
        (number_over P.eq grant_index.now.holdings draft.old.holdings)
        (grant_index.now.gifts.items ++ draft.new.gifts.items)
        (number_over P.eq grant_index.now.holdings draft.new.holdings)) }
    ensures unique { OnOk result (IsUnique bytes_eq draft.old.holdings →
        IsUnique bytes_eq draft.new.holdings) }
{
    let numbers = signer_numbers(
        alloc,
        &grant_index.holdings,
        &draft.holdings,
        signer,
        events,
    )?;
    'events: for i in 0..events.len() {
        add_event(alloc, grant_index, draft, place, numbers[i], &events[i])?;
    }
    Ok(())
}

/// What the record adds to the grant index. Where the record is lawful, the grant index stands for the records with it.
fn draft_of<L: Validator>(
    alloc: Global,
    grant_index: &GrantIndex<L::Permission>,
    record_index: usize,
    envelope: &ProtoEnvelope<L::Record>,
) -> Result<GrantIndex<L::Permission>, AllocError>
    ensures grant_index { ContentsMatchBytes L.Record.reading envelope.now → IfOk result (λ draft.
        (es : List EnvelopeData) → length es ≡ record_index →
        GivesOnlyHeld L.effects es envelope.now.envelope (L.effects.entries envelope.now.envelope) →
        IsGrantIndex (entries_of L.effects es) grant_index.now.gifts.items
        (number_at L.Permission.eq grant_index.now.holdings) →
        IsGrantIndex (entries_of L.effects (es ++ envelope.now.envelope ∷ []))
        (grant_index.now.gifts.items ++ draft.gifts.items)
        (number_over L.Permission.eq grant_index.now.holdings draft.holdings)) }
    ensures unique { IfOk result (λ draft. IsUnique bytes_eq draft.holdings) }
{
    let mut draft = GrantIndex::new(alloc);
    'entries: for entry_index in 0..L::entry_count(envelope) {
        let events = L::effects(alloc, envelope, entry_index)?;
        let place = Link {
            record_index,
            entry_index,
        };
        add_entry(
            alloc,
            grant_index,
            &mut draft,
            place,
            envelope.key_id(),
            events.as_slice(),
        )?;
    }
    Ok(draft)
}

/// What the envelope's record adds to the grant index, once there is room for that and for the envelope. Nothing else changes.
pub(crate) fn room_for<L: Validator>(
    alloc: Global,
    records: &mut Vec<ProtoEnvelope<L::Record>>,
    grant_index: &mut GrantIndex<L::Permission>,
    envelope: &ProtoEnvelope<L::Record>,
) -> Result<GrantIndex<L::Permission>, AllocError>
    ensures records { records.new.items ≡ records.old.items }
    ensures gifts { grant_index.new.gifts.items ≡ grant_index.old.gifts.items }
    ensures holdings { grant_index.new.holdings.entries ≡ grant_index.old.holdings.entries }
    ensures record_room { OnOk result (vec_len records.new < vec_capacity records.new) }
    ensures gift_room { IfOk result (λ draft.
        vec_len grant_index.new.gifts + vec_len draft.gifts ≤ vec_capacity grant_index.new.gifts) }
    ensures key_room { IfOk result
        (λ draft. index_map_len draft.holdings ≤ spare grant_index.new.holdings) }
    ensures unique { IfOk result (λ draft. IsUnique bytes_eq draft.holdings) }
    ensures grant_index { ContentsMatchBytes L.Record.reading envelope.now → IfOk result (λ draft.
        (es : List EnvelopeData) → length es ≡ length records.old.items →
        GivesOnlyHeld L.effects es envelope.now.envelope (L.effects.entries envelope.now.envelope) →
        IsGrantIndex (entries_of L.effects es) grant_index.old.gifts.items
        (number_at L.Permission.eq grant_index.old.holdings) →
        IsGrantIndex (entries_of L.effects (es ++ envelope.now.envelope ∷ []))
        (grant_index.old.gifts.items ++ draft.gifts.items)
        (number_over L.Permission.eq grant_index.old.holdings draft.holdings)) }
{
    let draft = draft_of::<L>(alloc, grant_index, records.len(), envelope)?;
    records.reserve(1)?;
    grant_index.reserve(&draft)?;
    Ok(draft)
}

/// The places that the numbers lead to, from the gift at the number back to the first, in the log's order.
pub(crate) fn trail_of(
    alloc: Global,
    gifts: &[GrantEvent],
    number: usize,
) -> Result<Vec<Link>, AllocError>
    requires { (ls : List Link) × IsTrail gifts.now number ls }
    ensures { IfOk result (λ links. (ls : List Link) → IsTrail gifts.now number ls →
        reverse links.items ≡ ls) }
{
    let mut links = Vec::new(alloc);
    let mut at = number;
    'back: loop {
        let gift = gifts[at];
        links.push(gift.place)?;
        if gift.by == at {
            links.reverse();
            return Ok(links);
        }
        at = gift.by;
    }
}
