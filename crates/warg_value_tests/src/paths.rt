//! Items of the crates that users name, each by its own path: a name that is missing there does not compile.

pub mod crypto {
    pub use warg_crypto::hash::{
        AnyHash, AnyHashError, Hash, HashAlgorithm, Sha256, SupportedDigest, UnknownAlgorithm,
    };
    pub use warg_crypto::prefix::{PrefixEncodeVisitor, VisitPrefixEncode};
    pub use warg_crypto::signing::{
        KeyID, KeyParseError, PublicKey, Signature, SignatureError, SignatureParseError, Signer,
        Verifier,
    };
    pub use warg_crypto::toy::{ToySigner, ToyVerifier};
    pub use warg_crypto::{
        ByteVisitor, Clock, Decode, DecodeError, Encode, Incoherence, JsonError, JsonValue,
        Signable, TimeError, Timestamp, VisitBytes, WireFault,
    };
}

pub mod protobuf {
    pub use warg_protobuf::{
        Envelope, OperatorDefineNamespace, OperatorEntry, OperatorGrantFlat,
        OperatorImportNamespace, OperatorInit, OperatorRecord, OperatorRevokeFlat, PackageEntry,
        PackageGrantFlat, PackageInit, PackageRecord, PackageRelease, PackageRevokeFlat,
        PackageYank, TimestampPair, WireError, operator_entry, package_entry,
    };
}

pub mod records {
    pub use warg_records::operator::{
        OPERATOR_RECORD_VERSION, OperatorEntry, OperatorRecord, Permission,
    };
    pub use warg_records::registry::{
        Checkpoint, LogId, LogLeaf, MapLeaf, PackageName, PackageNameError, RecordId,
        RegistryIndex, RegistryLen, TimestampedCheckpoint,
    };
    pub use warg_records::{
        InvalidPermission, ParseEnvelopeError, PermissionParseError, ProtoEnvelope,
        ProtoEnvelopeBody, PublishedProtoEnvelope, PublishedProtoEnvelopeBody, Record,
        SerdeEnvelope, Version, VersionReq,
    };

    pub mod package {
        pub use warg_records::package::{
            PACKAGE_RECORD_VERSION, PackageEntry, PackageRecord, Permission,
        };
    }
}
