//! What a host chooses with SET FEATURES (ACS-3, "SET FEATURES").

ghost use Rattle.std.specs.Prelude.{◌≡◌, ◌<◌, ◌≤◌, ◌%◌, ◌==◌, ◌&&◌, ◌||◌, nat_le, IfSome, Some, true};
ghost use Rattle.trusted_cmds.specs.declared.feature.Feature.{Feature};
ghost use Rattle.trusted_cmds.specs.Commands.{subcommand, mode_asked};
ghost use Rattle.trusted_cmds.specs.Profiles.{names_feature, feature_named, is_from, is_multiword, is_ultra, is_transfer_mode};

use fis::RegH2d;

/// What a host chooses of a drive's interface. The choice stands until the next one, a power cycle or a hardware reset.
#[derive(Clone, Copy, Debug, PartialEq, Eq)]
pub enum Feature {
    /// The volatile write cache: subcommand 02h enables it, 82h disables it.
    WriteCache { enabled: bool },
    /// Read look-ahead: subcommand AAh enables it, 55h disables it.
    ReadLookAhead { enabled: bool },
    /// The transfer mode, subcommand 03h: 00h and 01h the default of PIO, 08h to 0Ch PIO modes, 20h to 22h multiword DMA
    /// modes, 40h to 46h Ultra DMA modes.
    TransferMode { mode: u8 },
}

const ENABLE_WRITE_CACHE: u8 = 0x02;

const SET_TRANSFER_MODE: u8 = 0x03;

const DISABLE_LOOK_AHEAD: u8 = 0x55;

const DISABLE_WRITE_CACHE: u8 = 0x82;

const ENABLE_LOOK_AHEAD: u8 = 0xaa;

impl Feature {
    /// The subcommand of SET FEATURES.
    pub(crate) fn subcommand(self) -> u8
        ensures { result ≡ subcommand self }
    {
        match self {
            Feature::WriteCache { enabled: true } => ENABLE_WRITE_CACHE,
            Feature::WriteCache { enabled: false } => DISABLE_WRITE_CACHE,
            Feature::ReadLookAhead { enabled: true } => ENABLE_LOOK_AHEAD,
            Feature::ReadLookAhead { enabled: false } => DISABLE_LOOK_AHEAD,
            Feature::TransferMode { .. } => SET_TRANSFER_MODE,
        }
    }

    /// The transfer mode, or 0 where another feature is chosen.
    pub(crate) fn mode(self) -> u8
        ensures { result ≡ mode_asked self }
    {
        match self {
            Feature::TransferMode { mode } => mode,
            Feature::WriteCache { .. } | Feature::ReadLookAhead { .. } => 0,
        }
    }
}

/// Whether it is a mode of multiword DMA, 0 to 2.
pub fn is_multiword(mode: u8) -> bool
    ensures { result ≡ is_multiword mode }
{
    matches!(mode, 0x20..=0x22)
}

/// Whether it is a mode of Ultra DMA, 0 to 6.
pub fn is_ultra(mode: u8) -> bool
    ensures { result ≡ is_ultra mode }
{
    matches!(mode, 0x40..=0x46)
}

/// Whether the drive has the transfer mode.
fn is_transfer_mode(mode: u8) -> bool
    ensures { result ≡ is_transfer_mode mode }
{
    matches!(mode, 0..=1 | 8..=12) || is_multiword(mode) || is_ultra(mode)
}

/// The feature that a SET FEATURES names: its subcommand is Feature 7:0, a transfer mode Count 7:0.
pub(crate) fn feature_named(h: &RegH2d) -> Option<Feature>
    ensures value { result ≡ feature_named h.now }
    ensures found { IfSome result (λ f. names_feature f h.now ≡ true) }
    ensures only { (f : Feature) → names_feature f h.now ≡ true → result ≡ Some f }
{
    let mode = (h.count % 256) as u8;
    match (h.feature % 256) as u8 {
        ENABLE_WRITE_CACHE => Some(Feature::WriteCache { enabled: true }),
        DISABLE_WRITE_CACHE => Some(Feature::WriteCache { enabled: false }),
        ENABLE_LOOK_AHEAD => Some(Feature::ReadLookAhead { enabled: true }),
        DISABLE_LOOK_AHEAD => Some(Feature::ReadLookAhead { enabled: false }),
        SET_TRANSFER_MODE if is_transfer_mode(mode) => Some(Feature::TransferMode { mode }),
        _ => None,
    }
}
