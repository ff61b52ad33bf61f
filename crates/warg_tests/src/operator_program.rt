//! A program over operator logs, whose contracts cite what `warg_protocol` re-exports.
ghost use Rattle.std.specs.Prelude.{◌≡◌};
ghost use Rattle.warg_protocol.specs.Operator.{view_of};

use crate::samples::state;
use conformance_logs::scripts::id;
use std::alloc::Global;
use std::process::Abort;
use std::test::Fail;
use warg_protocol::operator::{LogState, Permission};
use warg_protocol::signing::KeyID;

/// Whether the key may sign checkpoints of the registry.
fn may_sign(state: &LogState, key_id: &KeyID) -> bool
    ensures { result ≡ (view_of state.now).state.authority.holds key_id.now Permission.Commit }
{
    state.key_has_permission_to_sign_checkpoints(key_id)
}

fn may_sign_in(alloc: Global, state: &LogState, name: &str) -> Result<bool, Fail> {
    Ok(may_sign(state, &id(alloc, name)?))
}

fn asks(rt: &impl Abort, alloc: Global, state: &LogState) -> Result<(), Fail> {
    assert!(rt; may_sign_in(alloc, state, "alice")?);
    assert!(rt; !may_sign_in(alloc, state, "bob")?);
    Ok(())
}

#[test]
fn a_program_asks_an_operator_log(rt: HostRuntime) -> Result<(), Fail> {
    let alloc = rt.alloc();
    asks(
        &rt,
        alloc,
        &state::<LogState>(alloc, "alice 1.0: init alice")?,
    )
}
