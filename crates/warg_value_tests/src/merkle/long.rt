//! Proofs of more hashes than are taken.

use crate::merkle::known::hash;
use std::test::Fail;
use warg_merkle::{verify_consistency, verify_inclusion};

// The roots of 3 and of 2^64 - 1 leaves that 65 hashes of sevens lead to, and the one of 2^64 - 1 that 64 lead to from
// an empty leaf: another program computed them.
const OF_THREE: &str = "4ca80f66552bb765316a1969d1d29781501df3444662c5648b23bb9d09513604";

const OF_ALL: &str = "db1758c411c9ec3b37fb152a41a4dd1abde8337344f08e0ef5ec8aaefa213454";

const ABOVE_EMPTY: &str = "bd61d5d4325b39560c6ba5ffafba433b07e9cb5a105033a838222508af627342";

#[test]
fn long_paths_are_refused(rt: HostRuntime) -> Result<(), Fail> {
    let path = [[7; 32]; 65];
    let (old, new, root) = (hash(OF_THREE)?, hash(OF_ALL)?, hash(ABOVE_EMPTY)?);
    assert!(rt; !verify_consistency(3, u64::MAX, &path, &old, &new));
    assert!(rt; !verify_consistency(3, u64::MAX, &path[..64], &old, &new));
    assert!(rt; verify_inclusion(b"", 0, u64::MAX, &path[..64], &root));
    assert!(rt; !verify_inclusion(b"", 0, u64::MAX, &path, &root));
    Ok(())
}
