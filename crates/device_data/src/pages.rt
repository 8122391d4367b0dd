//! The pages of the logs that tell of the device (ACS-3, annex on logs).

ghost use Rattle.std.specs.Prelude.{◌≡◌, ◌<◌, ◌+◌, IfOk};
ghost use Rattle.std.specs.List.{flat_map};
ghost use Rattle.device_data.specs.Identity.{run_from};
ghost use Rattle.device_data.specs.ErrorLog.{sized};
ghost use Rattle.device_data.specs.DevicePages.{page_length, page_head, directory_head, page_list_head, security_head, identify_page, device_log};

use crate::identify::identity_of;
use crate::settings::Settings;
use sp_cells::DriveConfig;
use std::alloc::{AllocError, Global};
use trusted_cmds::LogPages;

/// How many bytes a page has.
const PAGE_LENGTH: usize = 512;

/// The head of a page of IDENTIFY DEVICE data: that it is valid, its number, and its revision, 1.
fn page_head(page: u16) -> [u8; 8]
    ensures { result ≡ page_head page }
{
    (0x8000_0000_0000_0001 + 0x1_0000 * u64::from(page)).to_le_bytes()
}

/// That trusted computing is told, and supported.
const TRUSTED_COMPUTING: u64 = 0x8000_0000_0000_0001;

/// The directory: word 0 is its version, each other word how many pages the log at its address has.
fn directory(alloc: Global) -> Result<Vec<u8>, AllocError>
    ensures { IfOk result (λ bytes. bytes.items ≡ sized page_length directory_head) }
{
    let mut bytes = Vec::with_capacity(alloc, PAGE_LENGTH)?;
    bytes.push(1)?;
    bytes.resize(0x20, 0)?;
    bytes.push(1)?;
    bytes.resize(0x60, 0)?;
    bytes.push(9)?;
    bytes.resize(PAGE_LENGTH, 0)?;
    Ok(bytes)
}

/// Which pages there are.
fn page_list(alloc: Global) -> Result<Vec<u8>, AllocError>
    ensures { IfOk result (λ bytes. bytes.items ≡ sized page_length page_list_head) }
{
    let mut bytes = Vec::with_capacity(alloc, PAGE_LENGTH)?;
    bytes.extend_from_slice(&[1, 0, 0, 0, 0, 0, 0, 0, 3, 0, 1, 6])?;
    bytes.resize(PAGE_LENGTH, 0)?;
    Ok(bytes)
}

/// That the drive has trusted computing.
fn security(alloc: Global) -> Result<Vec<u8>, AllocError>
    ensures { IfOk result (λ bytes. bytes.items ≡ sized page_length security_head) }
{
    let mut bytes = Vec::with_capacity(alloc, PAGE_LENGTH)?;
    bytes.extend_from_slice(&page_head(6))?;
    bytes.resize(40, 0)?;
    bytes.extend_from_slice(&TRUSTED_COMPUTING.to_le_bytes())?;
    bytes.resize(PAGE_LENGTH, 0)?;
    Ok(bytes)
}

/// A page that has its head alone.
fn empty_page(alloc: Global, page: u16) -> Result<Vec<u8>, AllocError>
    ensures { IfOk result (λ bytes. bytes.items ≡ sized page_length (page_head page)) }
{
    let mut bytes = Vec::with_capacity(alloc, PAGE_LENGTH)?;
    bytes.extend_from_slice(&page_head(page))?;
    bytes.resize(PAGE_LENGTH, 0)?;
    Ok(bytes)
}

/// A page of IDENTIFY DEVICE data.
fn identify_page(
    alloc: Global,
    config: &DriveConfig,
    settings: &Settings,
    page: u16,
) -> Result<Vec<u8>, AllocError>
    ensures { IfOk result (λ bytes. bytes.items ≡ identify_page config.now settings.now page) }
{
    match page {
        0 => page_list(alloc),
        1 => identity_of(alloc, config, settings),
        6 => security(alloc),
        _ => empty_page(alloc, page),
    }
}

/// So many pages of IDENTIFY DEVICE data, from the first on.
fn identify_pages(
    alloc: Global,
    config: &DriveConfig,
    settings: &Settings,
    first: u16,
    count: u16,
) -> Result<Vec<u8>, AllocError>
    requires { first + count < 512 }
    ensures { IfOk result (λ bytes. bytes.items
        ≡ flat_map (identify_page config.now settings.now) (run_from first count)) }
{
    let mut bytes = Vec::with_capacity(alloc, PAGE_LENGTH * usize::from(count))?;
    for page in first..first + count {
        bytes.extend_from_slice(&identify_page(alloc, config, settings, page)?)?;
    }
    Ok(bytes)
}

/// The bytes of pages of the logs that tell of the device, 512 for each: the directory of the logs; and of IDENTIFY DEVICE
/// data the list of its pages, the copy of what IDENTIFY DEVICE answers, the page on security, which says that the drive has
/// trusted computing, and for others their heads.
pub fn device_log(
    alloc: Global,
    config: &DriveConfig,
    settings: &Settings,
    pages: &LogPages,
) -> Result<Vec<u8>, AllocError>
    ensures { IfOk result (λ bytes. bytes.items ≡ device_log config.now settings.now pages.now) }
{
    match *pages {
        LogPages::Directory => directory(alloc),
        LogPages::IdentifyData { first, count } => {
            identify_pages(alloc, config, settings, u16::from(first), u16::from(count))
        }
    }
}
