//! What the entries of a record do to permissions.
use crate::scripts::{ScriptLog, id, words_of};
use conformance_rows::RowError;
use std::alloc::Global;
use warg_protocol::signing::KeyID;
use warg_protocol::{Effect, ProtoEnvelope};

// What stands of the permission in the list of all that the entry does, where it may stand once.
fn listed_effect<L: ScriptLog>(
    events: &[(KeyID, L::Permission, Effect)],
    key_id: &KeyID,
    permission: L::Permission,
) -> Result<Effect, RowError> {
    let mut listed = Effect::Nothing;
    for event in events {
        if event.0 == *key_id && event.1 == permission {
            if listed != Effect::Nothing {
                return Err(RowError::new("an effect is listed twice"));
            }
            listed = event.2;
        }
    }
    Ok(listed)
}

fn effect_at<L: ScriptLog>(
    alloc: Global,
    envelope: &ProtoEnvelope<L::Record>,
    place: usize,
    key_id: &KeyID,
    permission: L::Permission,
) -> Result<&'static str, RowError> {
    if place >= L::entry_count(envelope) {
        return Ok("past the end");
    }
    let effect = L::effect(alloc, envelope, place, key_id, permission)?;
    let events = L::effects(alloc, envelope, place)?;
    if listed_effect::<L>(events.as_slice(), key_id, permission)? != effect {
        return Err(RowError::new("the list of effects says otherwise"));
    }
    Ok(match effect {
        Effect::Gives => "gives",
        Effect::Takes => "takes",
        Effect::Nothing => "nothing",
    })
}

/// What the entry does to a permission of a person. The subject is the entry's place, the person and the
/// permission, as `1 bob release`.
pub fn effect_of<L: ScriptLog>(
    alloc: Global,
    input: &[u8],
    subject: &str,
) -> Result<&'static str, RowError> {
    let (place, name, permission) = words_of(subject);
    let place = place.parse::<usize>()?;
    let permission = L::permission(permission)?;
    let key_id = id(alloc, name)?;
    let envelope = ProtoEnvelope::<L::Record>::from_protobuf(alloc, input)?;
    effect_at::<L>(alloc, &envelope, place, &key_id, permission)
}
