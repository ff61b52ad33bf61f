//! A program that is written once for both kinds: it saves a state, reads it back, and goes on from it.
use crate::samples::state;
use conformance_logs::scripts::signer;
use std::alloc::Global;
use std::fmt::Debug;
use std::process::Abort;
use std::test::Fail;
use warg_protocol::toy::ToyVerifier;
use warg_protocol::{PersistentState, ProtoEnvelope, Signable, Timestamp, operator, package};

// The state comes back.
fn comes_back<L: PersistentState>(alloc: Global, state: &L) -> Result<L, Fail> {
    let text = state.to_json(alloc)?;
    Ok(L::from_json(alloc, text.as_str())?)
}

// The envelope of the state's next record, with no entry.
fn next<L: PersistentState>(alloc: Global, state: &L) -> Result<ProtoEnvelope<L::Record>, Fail>
where
    L::Record: Signable,
{
    let record = state.next_record(Timestamp::new(9, 0), Vec::new(alloc));
    Ok(ProtoEnvelope::signed_contents(alloc, &signer(alloc, "alice")?, record)?)
}

// It takes the record, whose id is then the head.
fn takes<L: PersistentState>(rt: &impl Abort, state: &mut L, envelope: &ProtoEnvelope<L::Record>)
where
    L::Error: Debug,
{
    let answer = state.append(envelope, &ToyVerifier);
    assert!(rt; answer.is_ok());
    assert!(rt; state.head_digest() == Some(&L::record_id(envelope)));
}

fn goes_on<L: PersistentState>(rt: &impl Abort, alloc: Global, state: &L) -> Result<(), Fail>
where
    L::Record: Signable,
    L::Error: Debug,
{
    let mut again = comes_back(alloc, state)?;
    assert!(rt; again == *state);
    let envelope = next(alloc, &again)?;
    takes(rt, &mut again, &envelope);
    assert!(rt; again != *state);
    Ok(())
}

#[test]
fn package_logs_are_kept(rt: HostRuntime) -> Result<(), Fail> {
    let log = "alice 1.0: init alice, release 1.0.0 first";
    goes_on(
        &rt,
        rt.alloc(),
        &state::<package::LogState>(rt.alloc(), log)?,
    )
}

#[test]
fn operator_logs_are_kept(rt: HostRuntime) -> Result<(), Fail> {
    let log = "alice 1.0: init alice, define own";
    goes_on(
        &rt,
        rt.alloc(),
        &state::<operator::LogState>(rt.alloc(), log)?,
    )
}
