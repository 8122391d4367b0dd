//! Level 0 discovery (Core 2.01, section 3.3.6; Opal SSC 2.01, section 3.1.1).

ghost use Rattle.std.specs.Prelude.{◌≡◌, ◌++◌, OnOk, MatchOption, Some, None};
ghost use Rattle.decoded.specs.Fields.{rows_of};
ghost use Rattle.decoded.specs.Faults.{Checks};
ghost use Rattle.decoded.specs.Features.{level0_fields, feature_fields, feature_row, feature_of, feature_code, feature_size, features_in, feature_lines, features_lines, feature_fault, features_fault, fault_of_known, level0_size, level0_features, level0_fault, level0_lines};

use crate::fault::DecodeFault;
use crate::field::{
    Field, Form, append_hex_line, append_line, append_rows, behind, byte_at, check_fields,
    check_size, front,
};
use byteorder::{BigEndian, ByteOrder};
use std::alloc::{AllocError, Global};

/// The header.
const LEVEL0: [Field; 3] = [
    Field("LengthOfParameterData", &[0, 1, 2, 3], Form::Decimal),
    Field("DataStructureRevision", &[4, 5, 6, 7], Form::Hex),
    Field(
        "VendorSpecific",
        &[
            16, 17, 18, 19, 20, 21, 22, 23, 24, 25, 26, 27, 28, 29, 30, 31, 32, 33, 34, 35, 36, 37,
            38, 39, 40, 41, 42, 43, 44, 45, 46, 47,
        ],
        Form::Hex,
    ),
];

/// How many bytes the header has.
const LEVEL0_HEADER: usize = 48;

/// What each feature begins with.
const FEATURE_HEAD: [Field; 3] = [
    Field("FeatureCode", &[0, 1], Form::Hex),
    Field("Version", &[2], Form::High),
    Field("Length", &[3], Form::Decimal),
];

/// How many bytes that has.
const FEATURE_HEADER: usize = 4;

const TPER: [Field; 6] = [
    Field("SyncSupported", &[4], Form::Flag(0x01)),
    Field("AsyncSupported", &[4], Form::Flag(0x02)),
    Field("ACK/NAKSupported", &[4], Form::Flag(0x04)),
    Field("BufferManagementSupported", &[4], Form::Flag(0x08)),
    Field("StreamingSupported", &[4], Form::Flag(0x10)),
    Field("ComIDManagementSupported", &[4], Form::Flag(0x40)),
];

const LOCKING: [Field; 6] = [
    Field("LockingSupported", &[4], Form::Flag(0x01)),
    Field("LockingEnabled", &[4], Form::Flag(0x02)),
    Field("Locked", &[4], Form::Flag(0x04)),
    Field("MediaEncryption", &[4], Form::Flag(0x08)),
    Field("MBREnabled", &[4], Form::Flag(0x10)),
    Field("MBRDone", &[4], Form::Flag(0x20)),
];

const GEOMETRY: [Field; 4] = [
    Field("ALIGN", &[4], Form::Flag(0x01)),
    Field("LogicalBlockSize", &[12, 13, 14, 15], Form::Decimal),
    Field(
        "AlignmentGranularity",
        &[16, 17, 18, 19, 20, 21, 22, 23],
        Form::Decimal,
    ),
    Field(
        "LowestAlignedLBA",
        &[24, 25, 26, 27, 28, 29, 30, 31],
        Form::Decimal,
    ),
];

const OPAL: [Field; 7] = [
    Field("BaseComID", &[4, 5], Form::Hex),
    Field("NumberOfComIDs", &[6, 7], Form::Decimal),
    Field("RangeCrossingBehavior", &[8], Form::Flag(0x01)),
    Field("NumberOfLockingSPAdmins", &[9, 10], Form::Decimal),
    Field("NumberOfLockingSPUsers", &[11, 12], Form::Decimal),
    Field("InitialC_PIN_SIDIndicator", &[13], Form::Hex),
    Field("C_PIN_SIDUponRevert", &[14], Form::Hex),
];

const BLOCK_SID: [Field; 3] = [
    Field("SIDValueState", &[4], Form::Flag(0x01)),
    Field("SIDBlockedState", &[4], Form::Flag(0x02)),
    Field("HardwareReset", &[5], Form::Flag(0x01)),
];

const DATA_REMOVAL: [Field; 9] = [
    Field("DataRemovalOperationProcessing", &[5], Form::Flag(0x01)),
    Field("SupportedDataRemovalMechanism", &[6], Form::Hex),
    Field("DataRemovalTimeFormat", &[7], Form::Hex),
    Field("DataRemovalTimeBit0", &[8, 9], Form::Decimal),
    Field("DataRemovalTimeBit1", &[10, 11], Form::Decimal),
    Field("DataRemovalTimeBit2", &[12, 13], Form::Decimal),
    Field("DataRemovalTimeBit3", &[14, 15], Form::Decimal),
    Field("DataRemovalTimeBit4", &[16, 17], Form::Decimal),
    Field("DataRemovalTimeBit5", &[18, 19], Form::Decimal),
];

/// A feature that is known: its name, and what it has behind its length.
#[derive(Clone, Copy)]
pub(crate) struct Feature {
    pub name: &'static str,
    pub fields: &'static [Field],
}

#[tactic(auto, unfolding(crate::specs::Features::level0_fields))]
fn level0_fields() -> &'static [Field]
    ensures { rows_of result.now ≡ level0_fields }
{
    &LEVEL0
}

#[tactic(auto, unfolding(crate::specs::Features::feature_fields))]
fn feature_fields() -> &'static [Field]
    ensures { rows_of result.now ≡ feature_fields }
{
    &FEATURE_HEAD
}

/// The feature of a code.
#[tactic(auto, unfolding(crate::specs::Features::tper_fields, crate::specs::Features::locking_fields, crate::specs::Features::geometry_fields, crate::specs::Features::opal_fields, crate::specs::Features::block_sid_fields, crate::specs::Features::data_removal_fields))]
fn feature_of(code: u16) -> Option<Feature>
    ensures { MatchOption result (feature_of code ≡ None)
        (λ known. feature_of code ≡ Some (feature_row known)) }
{
    match code {
        0x0001 => Some(Feature {
            name: "TPer",
            fields: &TPER,
        }),
        0x0002 => Some(Feature {
            name: "Locking",
            fields: &LOCKING,
        }),
        0x0003 => Some(Feature {
            name: "Geometry",
            fields: &GEOMETRY,
        }),
        0x0203 => Some(Feature {
            name: "OpalSSC2",
            fields: &OPAL,
        }),
        0x0402 => Some(Feature {
            name: "BlockSID",
            fields: &BLOCK_SID,
        }),
        0x0404 => Some(Feature {
            name: "DataRemoval",
            fields: &DATA_REMOVAL,
        }),
        _ => None,
    }
}

/// The code of a feature.
fn feature_code(feature: &[u8]) -> u16
    ensures { result ≡ feature_code feature.now }
{
    256 * u16::from(byte_at(feature, 0)) + u16::from(byte_at(feature, 1))
}

/// How many bytes a feature has by its length.
fn feature_size(feature: &[u8]) -> usize
    ensures { result ≡ feature_size feature.now }
{
    FEATURE_HEADER + usize::from(byte_at(feature, 3))
}

/// Appends the lines of a feature.
fn append_feature(alloc: Global, text: &mut Vec<u8>, feature: &[u8]) -> Result<(), AllocError>
    ensures { OnOk result (text.new.items ≡ text.old.items ++ feature_lines feature.now) }
{
    match feature_of(feature_code(feature)) {
        Some(known) => {
            append_line(text, "Feature", known.name.as_bytes())?;
            append_rows(alloc, text, feature_fields(), feature)?;
            append_rows(alloc, text, known.fields, feature)?;
        }
        None => {
            append_line(text, "Feature", b"unknown")?;
            append_rows(alloc, text, feature_fields(), feature)?;
            append_hex_line(alloc, text, "Data", behind(feature, FEATURE_HEADER))?;
        }
    }
    Ok(())
}

/// Appends the lines of features that stand one behind the other.
fn append_features(alloc: Global, text: &mut Vec<u8>, features: &[u8]) -> Result<(), AllocError>
    ensures { OnOk result (text.new.items ≡ text.old.items
        ++ features_lines (features_in 0 features.now)) }
{
    let mut rest = features;
    while !rest.is_empty() {
        let size = feature_size(rest);
        append_feature(alloc, text, front(rest, size))?;
        rest = behind(rest, size);
    }
    Ok(())
}

/// Sees that a feature that is known has its fields.
fn check_known(feature: &[u8]) -> Result<(), DecodeFault>
    ensures { Checks (fault_of_known (feature_of (feature_code feature.now)) feature.now) result }
{
    match feature_of(feature_code(feature)) {
        Some(known) => {
            check_fields(known.fields, feature)?;
            Ok(())
        }
        None => Ok(()),
    }
}

/// Sees that a feature has its fields, and all that its length says.
fn check_feature(feature: &[u8]) -> Result<(), DecodeFault>
    ensures { Checks (feature_fault feature.now) result }
{
    check_fields(feature_fields(), feature)?;
    check_known(feature)?;
    check_size(feature_size(feature), "Data", feature)?;
    Ok(())
}

/// Sees that all features have their fields.
#[tactic(auto, using(crate::proofs::NextFeature::fault_behind))]
fn check_features(features: &[u8]) -> Result<(), DecodeFault>
    ensures { Checks (features_fault (features_in 0 features.now)) result }
{
    let mut rest = features;
    while !rest.is_empty() {
        let size = feature_size(rest);
        check_feature(front(rest, size))?;
        rest = behind(rest, size);
    }
    Ok(())
}

/// How many bytes the discovery has by its length.
fn level0_size(bytes: &[u8]) -> usize
    ensures { result ≡ level0_size bytes.now }
{
    let length = [
        byte_at(bytes, 0),
        byte_at(bytes, 1),
        byte_at(bytes, 2),
        byte_at(bytes, 3),
    ];
    4 + BigEndian::read_u32(&length) as usize
}

/// The features, as far as the bytes and the length go.
fn features(bytes: &[u8]) -> &[u8]
    ensures { result.now ≡ level0_features bytes.now }
{
    behind(front(bytes, level0_size(bytes)), LEVEL0_HEADER)
}

/// Sees that bytes have a discovery in them, whole.
pub(crate) fn check_level0(bytes: &[u8]) -> Result<(), DecodeFault>
    ensures { Checks (level0_fault bytes.now) result }
{
    check_fields(level0_fields(), bytes)?;
    check_features(features(bytes))?;
    check_size(level0_size(bytes), "FeatureCode", bytes)?;
    Ok(())
}

/// Appends the lines of a discovery.
pub(crate) fn append_level0(
    alloc: Global,
    text: &mut Vec<u8>,
    bytes: &[u8],
) -> Result<(), AllocError>
    ensures { OnOk result (text.new.items ≡ text.old.items ++ level0_lines bytes.now) }
{
    append_rows(alloc, text, level0_fields(), bytes)?;
    append_features(alloc, text, features(bytes))?;
    Ok(())
}
