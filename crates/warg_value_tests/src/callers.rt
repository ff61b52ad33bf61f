//! Callers of each message from another crate: each has the clauses of `decode` and `encode` in the message's own words,
//! with no proof file. One that is generic has them in the trait's.

ghost use Rattle.std.specs.Prelude.{◌≡◌, ◌≢◌, ℕ, List, Ok, Err, IfOk, IfErr, Option};
ghost use Rattle.warg_protobuf.specs.declared.error.WireError.{WireError};
ghost use Rattle.warg_protobuf.specs.declared.error.WireError.TheVariants.{OutOfMemory};
ghost use Rattle.warg_protobuf.specs.Envelope.{envelope_table, IsEnvelopeOf, envelope_view, IsEnvelope, envelope_of, envelope_bytes, EnvelopeValue};
ghost use Rattle.warg_protobuf.specs.Timestamp.{timestamp_table, timestamp_view, IsTimestamp, timestamp_of, timestamp_bytes, TimestampValue};
ghost use Rattle.warg_protobuf.specs.Init.{init_table, init_view, IsInit, init_of, init_bytes, InitValue};
ghost use Rattle.warg_protobuf.specs.GrantFlat.{grant_flat_table, grant_flat_view, IsGrantFlat, grant_flat_of, grant_flat_bytes, GrantFlatValue};
ghost use Rattle.warg_protobuf.specs.RevokeFlat.{revoke_flat_table, revoke_flat_view, IsRevokeFlat, revoke_flat_of, revoke_flat_bytes, RevokeFlatValue};
ghost use Rattle.warg_protobuf.specs.Release.{release_table, release_view, IsRelease, release_of, release_bytes, ReleaseValue};
ghost use Rattle.warg_protobuf.specs.Yank.{yank_table, yank_view, IsYank, yank_of, yank_bytes, YankValue};
ghost use Rattle.warg_protobuf.specs.DefineNamespace.{define_namespace_table, define_namespace_view, IsDefineNamespace, define_namespace_of, define_namespace_bytes, DefineNamespaceValue};
ghost use Rattle.warg_protobuf.specs.ImportNamespace.{import_namespace_table, import_namespace_view, IsImportNamespace, import_namespace_of, import_namespace_bytes, ImportNamespaceValue};
ghost use Rattle.warg_protobuf.specs.PackageEntry.{package_entry_table, package_entry_view, IsPackageEntry, package_entry_of, package_entry_bytes, PackageMember};
ghost use Rattle.warg_protobuf.specs.OperatorEntry.{operator_entry_table, operator_entry_view, IsOperatorEntry, operator_entry_of, operator_entry_bytes, OperatorMember};
ghost use Rattle.warg_protobuf.specs.PackageRecord.{package_record_table, package_record_view, IsPackageRecord, package_record_of, package_record_bytes};
ghost use Rattle.warg_protobuf.specs.OperatorRecord.{operator_record_table, operator_record_view, IsOperatorRecord, operator_record_of, operator_record_bytes};
ghost use Rattle.warg_protobuf.specs.Meaning.{IsMessage, HasOneAnswer};
ghost use Rattle.warg_protobuf.specs.Record.{RecordValue};
ghost use Rattle.warg_protobuf.specs.Table.{HasFault};
ghost use Rattle.warg_protobuf.specs.Views.{ReturnsOrNoMemory};
ghost use Rattle.warg_protobuf.specs.Writing.{bytes_of};

use std::alloc::{AllocError, Global};
use warg_protobuf::laws::one_answer;
use warg_protobuf::{
    Envelope, Message, OperatorDefineNamespace, OperatorEntry, OperatorImportNamespace,
    OperatorRecord, OperatorRevokeFlat, PackageEntry, PackageGrantFlat, PackageInit, PackageRecord,
    PackageRelease, PackageYank, TimestampPair, WireError,
};

/// All bytes are one envelope or have one fault.
pub fn one_envelope()
    ensures { (bytes : List ℕ) → HasOneAnswer envelope_table IsEnvelopeOf bytes }
{
    one_answer::<Envelope>();
}

/// Reads any message.
pub fn read_any<M: Message>(alloc: Global, bytes: &[u8]) -> Result<M, WireError>
    ensures found { IfOk result (λ v. IsMessage M.table M.Says bytes.now (M.view v)) }
    ensures fault { IfErr result (λ e. e ≢ OutOfMemory → HasFault M.table bytes.now e) }
{
    M::decode(alloc, bytes)
}

/// Writes any message.
pub fn write_any<M: Message>(alloc: Global, message: &M) -> Result<Vec<u8>, AllocError>
    ensures spelled { IfOk result (λ v. v.items ≡
        bytes_of (M.written_fields (M.view message.now))) }
    ensures read_again { IfOk result (λ v. IsMessage M.table M.Says v.items (M.view message.now)) }
{
    message.encode(alloc)
}

pub fn read_envelope(alloc: Global, bytes: &[u8]) -> Result<Envelope, WireError>
    ensures found { IfOk result (λ v. IsEnvelope bytes.now (envelope_view v)) }
    ensures fault { IfErr result (λ e. e ≢ OutOfMemory → HasFault envelope_table bytes.now e) }
    ensures only { (v : EnvelopeValue) → IsEnvelope bytes.now v →
        ReturnsOrNoMemory envelope_view result (Ok v) }
    ensures only_fault { (e : WireError) → HasFault envelope_table bytes.now e →
        ReturnsOrNoMemory envelope_view result (Err e) }
    ensures computed { ReturnsOrNoMemory envelope_view result (envelope_of bytes.now) }
{
    Envelope::decode(alloc, bytes)
}

pub fn write_envelope(alloc: Global, message: &Envelope) -> Result<Vec<u8>, AllocError>
    ensures spelled { IfOk result (λ v. v.items ≡ envelope_bytes (envelope_view message.now)) }
    ensures read_again { IfOk result (λ v. IsEnvelope v.items (envelope_view message.now)) }
{
    message.encode(alloc)
}

pub fn read_timestamp(alloc: Global, bytes: &[u8]) -> Result<TimestampPair, WireError>
    ensures found { IfOk result (λ v. IsTimestamp bytes.now (timestamp_view v)) }
    ensures fault { IfErr result (λ e. e ≢ OutOfMemory → HasFault timestamp_table bytes.now e) }
    ensures only { (v : TimestampValue) → IsTimestamp bytes.now v →
        ReturnsOrNoMemory timestamp_view result (Ok v) }
    ensures only_fault { (e : WireError) → HasFault timestamp_table bytes.now e →
        ReturnsOrNoMemory timestamp_view result (Err e) }
    ensures computed { ReturnsOrNoMemory timestamp_view result (timestamp_of bytes.now) }
{
    TimestampPair::decode(alloc, bytes)
}

pub fn write_timestamp(alloc: Global, message: &TimestampPair) -> Result<Vec<u8>, AllocError>
    ensures spelled { IfOk result (λ v. v.items ≡ timestamp_bytes (timestamp_view message.now)) }
    ensures read_again { IfOk result (λ v. IsTimestamp v.items (timestamp_view message.now)) }
{
    message.encode(alloc)
}

pub fn read_init(alloc: Global, bytes: &[u8]) -> Result<PackageInit, WireError>
    ensures found { IfOk result (λ v. IsInit bytes.now (init_view v)) }
    ensures fault { IfErr result (λ e. e ≢ OutOfMemory → HasFault init_table bytes.now e) }
    ensures only { (v : InitValue) → IsInit bytes.now v →
        ReturnsOrNoMemory init_view result (Ok v) }
    ensures only_fault { (e : WireError) → HasFault init_table bytes.now e →
        ReturnsOrNoMemory init_view result
        (Err e) }
    ensures computed { ReturnsOrNoMemory init_view result (init_of bytes.now) }
{
    PackageInit::decode(alloc, bytes)
}

pub fn write_init(alloc: Global, message: &PackageInit) -> Result<Vec<u8>, AllocError>
    ensures spelled { IfOk result (λ v. v.items ≡ init_bytes (init_view message.now)) }
    ensures read_again { IfOk result (λ v. IsInit v.items (init_view message.now)) }
{
    message.encode(alloc)
}

pub fn read_grant_flat(alloc: Global, bytes: &[u8]) -> Result<PackageGrantFlat, WireError>
    ensures found { IfOk result (λ v. IsGrantFlat bytes.now (grant_flat_view v)) }
    ensures fault { IfErr result (λ e. e ≢ OutOfMemory → HasFault grant_flat_table bytes.now e) }
    ensures only { (v : GrantFlatValue) → IsGrantFlat bytes.now v →
        ReturnsOrNoMemory grant_flat_view result (Ok v) }
    ensures only_fault { (e : WireError) → HasFault grant_flat_table bytes.now e →
        ReturnsOrNoMemory grant_flat_view result (Err e) }
    ensures computed { ReturnsOrNoMemory grant_flat_view result (grant_flat_of bytes.now) }
{
    PackageGrantFlat::decode(alloc, bytes)
}

pub fn write_grant_flat(alloc: Global, message: &PackageGrantFlat) -> Result<Vec<u8>, AllocError>
    ensures spelled { IfOk result (λ v. v.items ≡ grant_flat_bytes (grant_flat_view message.now)) }
    ensures read_again { IfOk result (λ v. IsGrantFlat v.items (grant_flat_view message.now)) }
{
    message.encode(alloc)
}

pub fn read_revoke_flat(alloc: Global, bytes: &[u8]) -> Result<OperatorRevokeFlat, WireError>
    ensures found { IfOk result (λ v. IsRevokeFlat bytes.now (revoke_flat_view v)) }
    ensures fault { IfErr result (λ e. e ≢ OutOfMemory → HasFault revoke_flat_table bytes.now e) }
    ensures only { (v : RevokeFlatValue) → IsRevokeFlat bytes.now v →
        ReturnsOrNoMemory revoke_flat_view result
        (Ok v) }
    ensures only_fault { (e : WireError) → HasFault revoke_flat_table bytes.now e →
        ReturnsOrNoMemory revoke_flat_view result (Err e) }
    ensures computed { ReturnsOrNoMemory revoke_flat_view result (revoke_flat_of bytes.now) }
{
    OperatorRevokeFlat::decode(alloc, bytes)
}

pub fn write_revoke_flat(alloc: Global, message: &OperatorRevokeFlat) -> Result<Vec<u8>, AllocError>
    ensures spelled { IfOk result (λ v. v.items ≡
        revoke_flat_bytes (revoke_flat_view message.now)) }
    ensures read_again { IfOk result (λ v. IsRevokeFlat v.items (revoke_flat_view message.now)) }
{
    message.encode(alloc)
}

pub fn read_release(alloc: Global, bytes: &[u8]) -> Result<PackageRelease, WireError>
    ensures found { IfOk result (λ v. IsRelease bytes.now (release_view v)) }
    ensures fault { IfErr result (λ e. e ≢ OutOfMemory → HasFault release_table bytes.now e) }
    ensures only { (v : ReleaseValue) → IsRelease bytes.now v →
        ReturnsOrNoMemory release_view result (Ok v) }
    ensures only_fault { (e : WireError) → HasFault release_table bytes.now e →
        ReturnsOrNoMemory release_view result (Err e) }
    ensures computed { ReturnsOrNoMemory release_view result (release_of bytes.now) }
{
    PackageRelease::decode(alloc, bytes)
}

pub fn write_release(alloc: Global, message: &PackageRelease) -> Result<Vec<u8>, AllocError>
    ensures spelled { IfOk result (λ v. v.items ≡ release_bytes (release_view message.now)) }
    ensures read_again { IfOk result (λ v. IsRelease v.items (release_view message.now)) }
{
    message.encode(alloc)
}

pub fn read_yank(alloc: Global, bytes: &[u8]) -> Result<PackageYank, WireError>
    ensures found { IfOk result (λ v. IsYank bytes.now (yank_view v)) }
    ensures fault { IfErr result (λ e. e ≢ OutOfMemory → HasFault yank_table bytes.now e) }
    ensures only { (v : YankValue) → IsYank bytes.now v →
        ReturnsOrNoMemory yank_view result (Ok v) }
    ensures only_fault { (e : WireError) → HasFault yank_table bytes.now e →
        ReturnsOrNoMemory yank_view result
        (Err e) }
    ensures computed { ReturnsOrNoMemory yank_view result (yank_of bytes.now) }
{
    PackageYank::decode(alloc, bytes)
}

pub fn write_yank(alloc: Global, message: &PackageYank) -> Result<Vec<u8>, AllocError>
    ensures spelled { IfOk result (λ v. v.items ≡ yank_bytes (yank_view message.now)) }
    ensures read_again { IfOk result (λ v. IsYank v.items (yank_view message.now)) }
{
    message.encode(alloc)
}

pub fn read_define_namespace(
    alloc: Global,
    bytes: &[u8],
) -> Result<OperatorDefineNamespace, WireError>
    ensures found { IfOk result (λ v. IsDefineNamespace bytes.now (define_namespace_view v)) }
    ensures fault { IfErr result (λ e. e ≢ OutOfMemory →
        HasFault define_namespace_table bytes.now e) }
    ensures only { (v : DefineNamespaceValue) → IsDefineNamespace bytes.now v →
        ReturnsOrNoMemory define_namespace_view result (Ok v) }
    ensures only_fault { (e : WireError) → HasFault define_namespace_table bytes.now e →
        ReturnsOrNoMemory define_namespace_view result (Err e) }
    ensures computed { ReturnsOrNoMemory define_namespace_view result
        (define_namespace_of bytes.now) }
{
    OperatorDefineNamespace::decode(alloc, bytes)
}

pub fn write_define_namespace(
    alloc: Global,
    message: &OperatorDefineNamespace,
) -> Result<Vec<u8>, AllocError>
    ensures spelled { IfOk result (λ v. v.items ≡
        define_namespace_bytes (define_namespace_view message.now)) }
    ensures read_again { IfOk result
        (λ v. IsDefineNamespace v.items (define_namespace_view message.now)) }
{
    message.encode(alloc)
}

pub fn read_import_namespace(
    alloc: Global,
    bytes: &[u8],
) -> Result<OperatorImportNamespace, WireError>
    ensures found { IfOk result (λ v. IsImportNamespace bytes.now (import_namespace_view v)) }
    ensures fault { IfErr result (λ e. e ≢ OutOfMemory →
        HasFault import_namespace_table bytes.now e) }
    ensures only { (v : ImportNamespaceValue) → IsImportNamespace bytes.now v →
        ReturnsOrNoMemory import_namespace_view result (Ok v) }
    ensures only_fault { (e : WireError) → HasFault import_namespace_table bytes.now e →
        ReturnsOrNoMemory import_namespace_view result (Err e) }
    ensures computed { ReturnsOrNoMemory import_namespace_view result
        (import_namespace_of bytes.now) }
{
    OperatorImportNamespace::decode(alloc, bytes)
}

pub fn write_import_namespace(
    alloc: Global,
    message: &OperatorImportNamespace,
) -> Result<Vec<u8>, AllocError>
    ensures spelled { IfOk result (λ v. v.items ≡
        import_namespace_bytes (import_namespace_view message.now)) }
    ensures read_again { IfOk result
        (λ v. IsImportNamespace v.items (import_namespace_view message.now)) }
{
    message.encode(alloc)
}

pub fn read_package_entry(alloc: Global, bytes: &[u8]) -> Result<PackageEntry, WireError>
    ensures found { IfOk result (λ v. IsPackageEntry bytes.now (package_entry_view v)) }
    ensures fault { IfErr result (λ e. e ≢ OutOfMemory → HasFault package_entry_table bytes.now e) }
    ensures only { (v : Option PackageMember) → IsPackageEntry bytes.now v →
        ReturnsOrNoMemory package_entry_view result (Ok v) }
    ensures only_fault { (e : WireError) → HasFault package_entry_table bytes.now e →
        ReturnsOrNoMemory package_entry_view result (Err e) }
    ensures computed { ReturnsOrNoMemory package_entry_view result (package_entry_of bytes.now) }
{
    PackageEntry::decode(alloc, bytes)
}

pub fn write_package_entry(alloc: Global, message: &PackageEntry) -> Result<Vec<u8>, AllocError>
    ensures spelled { IfOk result (λ v. v.items ≡
        package_entry_bytes (package_entry_view message.now)) }
    ensures read_again { IfOk result
        (λ v. IsPackageEntry v.items (package_entry_view message.now)) }
{
    message.encode(alloc)
}

pub fn read_operator_entry(alloc: Global, bytes: &[u8]) -> Result<OperatorEntry, WireError>
    ensures found { IfOk result (λ v. IsOperatorEntry bytes.now (operator_entry_view v)) }
    ensures fault { IfErr result (λ e. e ≢ OutOfMemory →
        HasFault operator_entry_table bytes.now e) }
    ensures only { (v : Option OperatorMember) → IsOperatorEntry bytes.now v →
        ReturnsOrNoMemory operator_entry_view result (Ok v) }
    ensures only_fault { (e : WireError) → HasFault operator_entry_table bytes.now e →
        ReturnsOrNoMemory operator_entry_view result (Err e) }
    ensures computed { ReturnsOrNoMemory operator_entry_view result (operator_entry_of bytes.now) }
{
    OperatorEntry::decode(alloc, bytes)
}

pub fn write_operator_entry(alloc: Global, message: &OperatorEntry) -> Result<Vec<u8>, AllocError>
    ensures spelled { IfOk result (λ v. v.items ≡
        operator_entry_bytes (operator_entry_view message.now)) }
    ensures read_again { IfOk result
        (λ v. IsOperatorEntry v.items (operator_entry_view message.now)) }
{
    message.encode(alloc)
}

pub fn read_package_record(alloc: Global, bytes: &[u8]) -> Result<PackageRecord, WireError>
    ensures found { IfOk result (λ v. IsPackageRecord bytes.now (package_record_view v)) }
    ensures fault { IfErr result (λ e. e ≢ OutOfMemory →
        HasFault package_record_table bytes.now e) }
    ensures only { (v : RecordValue (List (Option PackageMember))) → IsPackageRecord bytes.now v →
        ReturnsOrNoMemory package_record_view result (Ok v) }
    ensures only_fault { (e : WireError) → HasFault package_record_table bytes.now e →
        ReturnsOrNoMemory package_record_view result (Err e) }
    ensures computed { ReturnsOrNoMemory package_record_view result (package_record_of bytes.now) }
{
    PackageRecord::decode(alloc, bytes)
}

pub fn write_package_record(alloc: Global, message: &PackageRecord) -> Result<Vec<u8>, AllocError>
    ensures spelled { IfOk result (λ v. v.items ≡
        package_record_bytes (package_record_view message.now)) }
    ensures read_again { IfOk result
        (λ v. IsPackageRecord v.items (package_record_view message.now)) }
{
    message.encode(alloc)
}

pub fn read_operator_record(alloc: Global, bytes: &[u8]) -> Result<OperatorRecord, WireError>
    ensures found { IfOk result (λ v. IsOperatorRecord bytes.now (operator_record_view v)) }
    ensures fault { IfErr result (λ e. e ≢ OutOfMemory →
        HasFault operator_record_table bytes.now e) }
    ensures only { (v : RecordValue (List (Option OperatorMember))) → IsOperatorRecord bytes.now v →
        ReturnsOrNoMemory operator_record_view result (Ok v) }
    ensures only_fault { (e : WireError) → HasFault operator_record_table bytes.now e →
        ReturnsOrNoMemory operator_record_view result (Err e) }
    ensures computed { ReturnsOrNoMemory operator_record_view result
        (operator_record_of bytes.now) }
{
    OperatorRecord::decode(alloc, bytes)
}

pub fn write_operator_record(alloc: Global, message: &OperatorRecord) -> Result<Vec<u8>, AllocError>
    ensures spelled { IfOk result (λ v. v.items ≡
        operator_record_bytes (operator_record_view message.now)) }
    ensures read_again { IfOk result
        (λ v. IsOperatorRecord v.items (operator_record_view message.now)) }
{
    message.encode(alloc)
}
