//! Messages that are too long for a row.

use std::test::Fail;
use warg_protobuf::{Message, PackageGrantFlat};

#[test]
fn many_unpacked_permissions(rt: HostRuntime) -> Result<(), Fail> {
    let bytes = b"\x10\x01".repeat(rt.alloc(), 100_000)?;
    let grant = PackageGrantFlat::decode(rt.alloc(), &bytes)?;
    assert_eq!(rt; grant.permissions.len(), 100_000);
    assert!(rt; grant.permissions.iter().all(|p| *p == 1));
    Ok(())
}
