//! All proofs of small logs, by themselves and under checkpoints.

use crate::transparency::known::{checkpoint, leaf, log_of};
use std::test::Fail;
use warg_transparency::{LogProof, LogTree, verify_consistency, verify_inclusion, verify_leaf};

// The proof of the leaf at the index, or the one of no hashes past the end.
fn inclusion(alloc: std::alloc::Global, log: &LogTree, index: u64) -> Result<LogProof, Fail> {
    match log.inclusion(index)? {
        Some(proof) => Ok(proof),
        None => Ok(LogProof::from_hashes(alloc, [].as_slice())?),
    }
}

#[test]
fn each_leaf_is_shown_at_its_place_alone(rt: HostRuntime) -> Result<(), Fail> {
    let log = log_of(rt.alloc(), 7)?;
    let root = log.root();
    let checkpoint = checkpoint(rt.alloc(), 7)?;
    for index in 0..8 {
        let proof = inclusion(rt.alloc(), &log, index)?;
        for place in 0..7 {
            let is_shown = verify_inclusion(&leaf(place), index, 7, proof.hashes(), &root);
            assert_eq!(rt; is_shown, index == u64::from(place));
            let is_shown = verify_leaf(&checkpoint, &leaf(place), index, proof.hashes());
            assert_eq!(rt; is_shown, index == u64::from(place));
        }
        assert!(rt; !verify_inclusion(&leaf(index as u8), index, index, proof.hashes(), &root));
        assert!(rt;
            !verify_inclusion(
                &leaf(index as u8),
                u64::MAX,
                u64::MAX,
                proof.hashes(),
                &root
            )
        );
    }
    Ok(())
}

#[test]
fn each_log_goes_on_from_its_fronts_alone(rt: HostRuntime) -> Result<(), Fail> {
    let log = log_of(rt.alloc(), 7)?;
    let new = checkpoint(rt.alloc(), 7)?;
    for first in 0..8 {
        let proof = log.consistency(first)?.ok_or("past the end")?;
        for count in 0..9 {
            let old = checkpoint(rt.alloc(), count)?;
            let is_shown = verify_consistency(&old, &new, proof.hashes());
            // The proofs for no leaves and for all are empty alike.
            assert_eq!(rt;
                is_shown,
                u64::from(count) == first || (first % 7 == 0 && count % 7 == 0)
            );
            assert!(rt; !verify_consistency(&new, &old, proof.hashes()) || count == 7);
        }
    }
    Ok(())
}

#[test]
fn long_proofs_are_refused(rt: HostRuntime) -> Result<(), Fail> {
    let (old, new) = (checkpoint(rt.alloc(), 6)?, checkpoint(rt.alloc(), 8)?);
    let long = [[0u8; 32]; 65];
    assert!(rt; !verify_consistency(&old, &new, long.as_slice()));
    assert!(rt; !verify_inclusion(&leaf(0), 0, u64::MAX, long.as_slice(), &new.log_root));
    Ok(())
}
