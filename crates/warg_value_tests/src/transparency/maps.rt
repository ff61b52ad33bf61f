//! Maps of known leaves.

use crate::transparency::known::{checkpoint, head, log_id, map_of, record_id};
use std::test::Fail;
use warg_transparency::{verify_absence, verify_head, verify_no_head};

#[test]
fn a_leaf_is_put_once(rt: HostRuntime) -> Result<(), Fail> {
    let mut map = map_of(rt.alloc(), 1)?;
    assert_eq!(rt; map.get(&log_id(0)), Some(head(0)));
    assert_eq!(rt; map.get(&log_id(1)), None);
    assert_eq!(rt; map.insert(&log_id(0), &head(1))?, Some(head(0)));
    assert_eq!(rt; map.insert(&log_id(1), &head(1))?, None);
    assert_eq!(rt; map.get(&log_id(0)), Some(head(1)));
    assert_eq!(rt; map.len(), 2);
    Ok(())
}

#[test]
fn heads_are_shown_where_they_stand_alone(rt: HostRuntime) -> Result<(), Fail> {
    let map = map_of(rt.alloc(), 2)?;
    let checkpoint = checkpoint(rt.alloc(), 8)?;
    for number in 0..3 {
        let proof = map.proof(&log_id(number))?;
        for other in 0..3 {
            let is_there = number == other && number < 2;
            for record in 0..10 {
                let is_shown = verify_head(&checkpoint, &log_id(other), &record_id(record), &proof);
                assert_eq!(rt; is_shown, is_there && record == number + 6);
            }
            let is_absent = number == 2 && other == 2;
            assert_eq!(rt;
                verify_absence(&log_id(other), &proof, &checkpoint.map_root),
                is_absent
            );
            assert_eq!(rt;
                verify_no_head(&checkpoint, &log_id(other), &proof),
                is_absent
            );
        }
    }
    Ok(())
}
