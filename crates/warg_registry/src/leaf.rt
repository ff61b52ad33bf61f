//! The leaves of a registry's map and log.
ghost use Rattle.std.specs.Prelude.{◌≡◌, ◌++◌, ℕ, List, OnOk, OnErr, ⊤};

use crate::LogId;
use crate::visits::visit_hash;
use std::alloc::AllocError;
use warg_crypto::hash::AnyHash;
use warg_crypto::prefix::{PrefixEncodeVisitor, VisitPrefixEncode};
use warg_crypto::{ByteVisitor, VisitBytes};
use warg_log_records::RecordId;

/// A leaf of the map: the last record of a log.
#[derive(Copy, Debug, PartialEq, Eq, Hash)]
pub struct MapLeaf {
    /// The last record of the log.
    pub record_id: RecordId,
}

impl Clone for MapLeaf {
    ghost is_clone = { λ a b. b ≡ a };

    ghost is_infallible = { λ _. ⊤ };

    fn clone(&self) -> Result<MapLeaf, AllocError> {
        Ok(*self)
    }
}

/// A leaf of the log: a record that was appended to a log.
#[derive(Copy, Debug, PartialEq, Eq, Hash)]
pub struct LogLeaf {
    /// The log.
    pub log_id: LogId,
    /// The record that was appended to it.
    pub record_id: RecordId,
}

impl Clone for LogLeaf {
    ghost is_clone = { λ a b. b ≡ a };

    ghost is_infallible = { λ _. ⊤ };

    fn clone(&self) -> Result<LogLeaf, AllocError> {
        Ok(*self)
    }
}

impl VisitPrefixEncode for MapLeaf {
    ghost use Rattle.warg_registry.specs.PrefixEncodings.{map_leaf_encoding_of};

    ghost prefix_encoding_of = { map_leaf_encoding_of };

    fn visit_pe<BV: ByteVisitor>(
        &self,
        visitor: &mut PrefixEncodeVisitor<'_, BV>,
    ) -> Result<(), AllocError> {
        visitor.visit_str_raw("WARG-MAP-LEAF-V0")?;
        visit_hash(visitor, &AnyHash::from(self.record_id))
    }
}

impl VisitBytes for MapLeaf {
    ghost use Rattle.warg_registry.specs.PrefixEncodings.{map_leaf_encoding_of};

    ghost bytes_of = { map_leaf_encoding_of };

    fn visit<BV: ByteVisitor>(&self, visitor: &mut BV) -> Result<(), AllocError> {
        self.visit_bv(visitor)
    }
}

impl VisitPrefixEncode for LogLeaf {
    ghost use Rattle.warg_registry.specs.PrefixEncodings.{log_leaf_encoding_of};

    ghost prefix_encoding_of = { log_leaf_encoding_of };

    fn visit_pe<BV: ByteVisitor>(
        &self,
        visitor: &mut PrefixEncodeVisitor<'_, BV>,
    ) -> Result<(), AllocError> {
        visitor.visit_str_raw("WARG-LOG-LEAF-V0")?;
        visit_hash(visitor, &self.log_id.hash)?;
        visit_hash(visitor, &AnyHash::from(self.record_id))
    }
}

impl VisitBytes for LogLeaf {
    ghost use Rattle.warg_registry.specs.PrefixEncodings.{log_leaf_encoding_of};

    ghost bytes_of = { log_leaf_encoding_of };

    fn visit<BV: ByteVisitor>(&self, visitor: &mut BV) -> Result<(), AllocError> {
        self.visit_bv(visitor)
    }
}
