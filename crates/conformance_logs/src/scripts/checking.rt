//! What has to hold of a script's log.
use conformance_rows::RowError;

/// Fails for this reason where something does not hold.
pub fn check(holds: bool, reason: &'static str) -> Result<(), RowError> {
    if holds {
        Ok(())
    } else {
        Err(RowError::new(reason))
    }
}
