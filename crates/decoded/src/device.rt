//! What an ATA device says of itself: IDENTIFY DEVICE (ACS-3, section 7.12), and pages of logs (ACS-3, annex A).

ghost use Rattle.std.specs.Prelude.{◌≡◌, ◌%◌, ◌==◌, ◌++◌, OnOk};
ghost use Rattle.decoded.specs.Fields.{rows_of};
ghost use Rattle.decoded.specs.Faults.{Checks};
ghost use Rattle.decoded.specs.DeviceFields.{identify_fields, has_sum, sum_text, integrity_text, identify_fault, identify_lines, queued_error_fields, queued_error_fault, queued_error_lines, directory_fields, directory_fault, directory_lines, data_page_fields, page_list_fields, security_page_fields, data_page_fault, page_content_lines, data_page_lines};

use crate::fault::DecodeFault;
use crate::field::{
    Field, Form, append_line, append_rows, byte_at, check_fields, check_size, front,
};
use crate::listing::{Listing, append_listing};
use basics::byte_sum;
use std::alloc::{AllocError, Global};

/// How many bytes each of them has.
const PAGE_SIZE: usize = 512;

const IDENTIFY: [Field; 17] = [
    Field(
        "SerialNumber",
        &[
            21, 20, 23, 22, 25, 24, 27, 26, 29, 28, 31, 30, 33, 32, 35, 34, 37, 36, 39, 38,
        ],
        Form::Text,
    ),
    Field(
        "FirmwareRevision",
        &[47, 46, 49, 48, 51, 50, 53, 52],
        Form::Text,
    ),
    Field(
        "ModelNumber",
        &[
            55, 54, 57, 56, 59, 58, 61, 60, 63, 62, 65, 64, 67, 66, 69, 68, 71, 70, 73, 72, 75, 74,
            77, 76, 79, 78, 81, 80, 83, 82, 85, 84, 87, 86, 89, 88, 91, 90, 93, 92,
        ],
        Form::Text,
    ),
    Field("TrustedComputingSupported", &[97, 96], Form::Flag(0x0001)),
    Field("Sectors28", &[123, 122, 121, 120], Form::Decimal),
    Field("QueueDepthMinusOne", &[151, 150], Form::Low(0x001f)),
    Field("NCQSupported", &[153, 152], Form::Flag(0x0100)),
    Field("Address48Supported", &[167, 166], Form::Flag(0x0400)),
    Field("SecurityEraseTime", &[179, 178], Form::Hex),
    Field("EnhancedSecurityEraseTime", &[181, 180], Form::Hex),
    Field("MasterPasswordIdentifier", &[185, 184], Form::Hex),
    Field(
        "Sectors48",
        &[207, 206, 205, 204, 203, 202, 201, 200],
        Form::Decimal,
    ),
    Field("SecuritySupported", &[257, 256], Form::Flag(0x0001)),
    Field("SecurityEnabled", &[257, 256], Form::Flag(0x0002)),
    Field("SecurityLocked", &[257, 256], Form::Flag(0x0004)),
    Field("SecurityFrozen", &[257, 256], Form::Flag(0x0008)),
    Field("IntegrityWord", &[511, 510], Form::Hex),
];

const QUEUED_ERROR: [Field; 9] = [
    Field("NQ", &[0], Form::Flag(0x80)),
    Field("UNL", &[0], Form::Flag(0x40)),
    Field("NCQTag", &[0], Form::Low(0x1f)),
    Field("Status", &[2], Form::Hex),
    Field("Error", &[3], Form::Hex),
    Field("LBA", &[10, 9, 8, 6, 5, 4], Form::Decimal),
    Field("Device", &[7], Form::Hex),
    Field("Count", &[13, 12], Form::Decimal),
    Field("ChecksumByte", &[511], Form::Hex),
];

const DIRECTORY: [Field; 1] = [Field("GeneralPurposeLoggingVersion", &[1, 0], Form::Hex)];

const DATA_PAGE: [Field; 3] = [
    Field("RevisionNumber", &[1, 0], Form::Hex),
    Field("PageNumber", &[2], Form::Hex),
    Field("PageDataValid", &[7], Form::Flag(0x80)),
];

const PAGE_LIST: [Field; 1] = [Field("NumberOfEntries", &[8], Form::Decimal)];

const SECURITY_PAGE: [Field; 2] = [
    Field("TrustedComputingValid", &[47], Form::Flag(0x80)),
    Field("TrustedComputingSupported", &[40], Form::Flag(0x01)),
];

#[tactic(auto, unfolding(crate::specs::DeviceFields::identify_fields))]
fn identify_fields() -> &'static [Field]
    ensures { rows_of result.now ≡ identify_fields }
{
    &IDENTIFY
}

#[tactic(auto, unfolding(crate::specs::DeviceFields::queued_error_fields))]
fn queued_error_fields() -> &'static [Field]
    ensures { rows_of result.now ≡ queued_error_fields }
{
    &QUEUED_ERROR
}

#[tactic(auto, unfolding(crate::specs::DeviceFields::directory_fields))]
fn directory_fields() -> &'static [Field]
    ensures { rows_of result.now ≡ directory_fields }
{
    &DIRECTORY
}

#[tactic(auto, unfolding(crate::specs::DeviceFields::data_page_fields))]
fn data_page_fields() -> &'static [Field]
    ensures { rows_of result.now ≡ data_page_fields }
{
    &DATA_PAGE
}

#[tactic(auto, unfolding(crate::specs::DeviceFields::page_list_fields))]
fn page_list_fields() -> &'static [Field]
    ensures { rows_of result.now ≡ page_list_fields }
{
    &PAGE_LIST
}

#[tactic(auto, unfolding(crate::specs::DeviceFields::security_page_fields))]
fn security_page_fields() -> &'static [Field]
    ensures { rows_of result.now ≡ security_page_fields }
{
    &SECURITY_PAGE
}

/// Whether the sum of all bytes is a multiple of 256.
fn has_sum(bytes: &[u8]) -> bool
    ensures { result ≡ has_sum bytes.now }
{
    byte_sum(front(bytes, PAGE_SIZE)) == 0
}

fn sum_text(is_right: bool) -> &'static str
    ensures { result.now ≡ sum_text is_right }
{
    if is_right { "right" } else { "wrong" }
}

/// What is told of the checksum of IDENTIFY DEVICE.
fn integrity_text(bytes: &[u8]) -> &'static str
    ensures { result.now ≡ integrity_text bytes.now }
{
    if byte_at(bytes, 510) == 0xa5 {
        sum_text(has_sum(bytes))
    } else {
        "none"
    }
}

/// Sees that bytes have all of IDENTIFY DEVICE.
pub(crate) fn check_identify(bytes: &[u8]) -> Result<(), DecodeFault>
    ensures { Checks (identify_fault bytes.now) result }
{
    check_fields(identify_fields(), bytes)?;
    Ok(())
}

/// Appends the lines of IDENTIFY DEVICE.
pub(crate) fn append_identify(
    alloc: Global,
    text: &mut Vec<u8>,
    bytes: &[u8],
) -> Result<(), AllocError>
    ensures { OnOk result (text.new.items ≡ text.old.items ++ identify_lines bytes.now) }
{
    append_rows(alloc, text, identify_fields(), bytes)?;
    append_line(text, "Checksum", integrity_text(bytes).as_bytes())?;
    append_listing(alloc, text, Listing::Words, bytes, 256)?;
    Ok(())
}

/// Sees that bytes have all of the log of a queued error.
pub(crate) fn check_queued_error(bytes: &[u8]) -> Result<(), DecodeFault>
    ensures { Checks (queued_error_fault bytes.now) result }
{
    check_fields(queued_error_fields(), bytes)?;
    Ok(())
}

/// Appends the lines of the log of a queued error.
pub(crate) fn append_queued_error(
    alloc: Global,
    text: &mut Vec<u8>,
    bytes: &[u8],
) -> Result<(), AllocError>
    ensures { OnOk result (text.new.items ≡ text.old.items ++ queued_error_lines bytes.now) }
{
    append_rows(alloc, text, queued_error_fields(), bytes)?;
    append_line(text, "Checksum", sum_text(has_sum(bytes)).as_bytes())?;
    Ok(())
}

/// Sees that bytes have all of the directory of the logs.
pub(crate) fn check_directory(bytes: &[u8]) -> Result<(), DecodeFault>
    ensures { Checks (directory_fault bytes.now) result }
{
    check_fields(directory_fields(), bytes)?;
    check_size(PAGE_SIZE, "Log", bytes)?;
    Ok(())
}

/// Appends the lines of the directory of the logs.
pub(crate) fn append_directory(
    alloc: Global,
    text: &mut Vec<u8>,
    bytes: &[u8],
) -> Result<(), AllocError>
    ensures { OnOk result (text.new.items ≡ text.old.items ++ directory_lines bytes.now) }
{
    append_rows(alloc, text, directory_fields(), bytes)?;
    append_listing(alloc, text, Listing::Logs, bytes, 256)?;
    Ok(())
}

/// Sees that bytes have all of a page of the log of IDENTIFY DEVICE data.
pub(crate) fn check_data_page(bytes: &[u8]) -> Result<(), DecodeFault>
    ensures { Checks (data_page_fault bytes.now) result }
{
    check_fields(data_page_fields(), bytes)?;
    check_size(PAGE_SIZE, "Qword", bytes)?;
    Ok(())
}

/// Appends what stands behind the header of a page.
fn append_page_content(
    alloc: Global,
    text: &mut Vec<u8>,
    page: u8,
    bytes: &[u8],
) -> Result<(), AllocError>
    ensures { OnOk result (text.new.items ≡ text.old.items ++ page_content_lines page bytes.now) }
{
    match page {
        0x00 => {
            append_rows(alloc, text, page_list_fields(), bytes)?;
            let count = u16::from(byte_at(bytes, 8));
            append_listing(alloc, text, Listing::Pages, bytes, count)?;
            Ok(())
        }
        0x06 => {
            append_rows(alloc, text, security_page_fields(), bytes)?;
            append_listing(alloc, text, Listing::Qwords, bytes, 64)?;
            Ok(())
        }
        _ => {
            append_listing(alloc, text, Listing::Qwords, bytes, 64)?;
            Ok(())
        }
    }
}

/// Appends the lines of a page of the log of IDENTIFY DEVICE data.
pub(crate) fn append_data_page(
    alloc: Global,
    text: &mut Vec<u8>,
    bytes: &[u8],
) -> Result<(), AllocError>
    ensures { OnOk result (text.new.items ≡ text.old.items ++ data_page_lines bytes.now) }
{
    append_rows(alloc, text, data_page_fields(), bytes)?;
    append_page_content(alloc, text, byte_at(bytes, 2), bytes)?;
    Ok(())
}
