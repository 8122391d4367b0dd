//! Which pages a read of a log names (ACS-3, "READ LOG EXT" and annex on logs).

ghost use Rattle.std.specs.Prelude.{◌≡◌, ◌<◌, ◌≤◌, ◌+◌, ◌*◌, ◌/◌, ◌%◌, ◌==◌, ◌&&◌, ◌^◌, nat_le, nat_lt, IfSome, Some, true};
ghost use Rattle.trusted_cmds.specs.declared.log_pages.LogPages.{LogPages};
ghost use Rattle.trusted_cmds.specs.Commands.{log_place, pages_asked};
ghost use Rattle.trusted_cmds.specs.Profiles.{log_address, first_page, are_pages, names_pages, pages_named};

use fis::RegH2d;

/// Pages of the logs that tell of the device.
#[derive(Clone, Copy, Debug, PartialEq, Eq)]
pub enum LogPages {
    /// The General Purpose Log directory, address 00h, page 00h.
    Directory,
    /// So many pages of IDENTIFY DEVICE data, address 30h, from the first on; its pages are 00h to 08h.
    IdentifyData { first: u8, count: u8 },
}

impl LogPages {
    /// How many pages are read.
    pub fn count(self) -> u16
        ensures { result ≡ pages_asked self }
    {
        match self {
            LogPages::Directory => 1,
            LogPages::IdentifyData { count, .. } => u16::from(count),
        }
    }
}

/// The address of the log IDENTIFY DEVICE data.
const IDENTIFY_DATA_ADDRESS: u64 = 0x30;

/// How many pages the log IDENTIFY DEVICE data has.
const IDENTIFY_DATA_PAGES: u64 = 9;

/// The address of a log in LBA 7:0, with the number of the first page in LBA 15:8.
pub(crate) fn log_place(pages: &LogPages) -> u64
    ensures value { result ≡ log_place pages.now }
    ensures bounded { result < 2 ^ 48 }
{
    match *pages {
        LogPages::Directory => 0,
        LogPages::IdentifyData { first, .. } => IDENTIFY_DATA_ADDRESS + 256 * u64::from(first),
    }
}

/// The number of the first page that a read of a log names: its low byte in LBA 15:8, its high byte in LBA 39:32.
fn first_page(h: &RegH2d) -> u64
    ensures { result ≡ first_page h.now }
{
    let lba = h.lba.number();
    lba / 256 % 256 + 256 * (lba / 0x1_0000_0000 % 256)
}

/// The pages that a read of a log names.
pub(crate) fn pages_named(h: &RegH2d) -> Option<LogPages>
    ensures value { result ≡ pages_named h.now }
    ensures found { IfSome result (λ p. names_pages p h.now ≡ true) }
    ensures only { (p : LogPages) → names_pages p h.now ≡ true → result ≡ Some p }
{
    let address = h.lba.number() % 256;
    let first = first_page(h);
    let count = u64::from(h.count);
    if address == 0 && first == 0 && count == 1 {
        Some(LogPages::Directory)
    } else if address == IDENTIFY_DATA_ADDRESS
        && 0 < count
        && first + count <= IDENTIFY_DATA_PAGES
    {
        Some(LogPages::IdentifyData {
            first: first as u8,
            count: count as u8,
        })
    } else {
        None
    }
}
