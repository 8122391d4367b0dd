//! What a host has chosen of a drive's interface (ACS-3, "SET FEATURES", and the Power Management feature set).

ghost use Rattle.std.specs.Prelude.{◌≡◌, ◌==◌, ◌||◌, ◌&&◌, if◌then◌else◌};
ghost use Rattle.device_data.specs.Settings.{first_mode, first_settings, with_feature, settings_at_reset, with_standby, active};

use trusted_cmds::Feature;

/// What a host has chosen of a drive's interface. IDENTIFY DEVICE tells it, in words 63, 85 and 88, and CHECK POWER MODE
/// whether the drive is in standby.
#[derive(Clone, Copy, Debug, PartialEq, Eq)]
pub struct Settings {
    /// Whether the volatile write cache is enabled.
    pub write_cache: bool,
    /// Whether read look-ahead is enabled.
    pub read_look_ahead: bool,
    /// The transfer mode, by its number in SET FEATURES.
    pub transfer_mode: u8,
    /// Whether the drive is in standby.
    pub in_standby: bool,
}

/// The transfer mode with which a drive begins: Ultra DMA mode 6.
const FIRST_MODE: u8 = 0x46;

/// The number of a power cycle.
const POWER_CYCLE: u8 = 0;

/// The number of a hardware reset.
const HARDWARE: u8 = 1;

impl Settings {
    /// What a drive begins with, and has again after a power cycle or a hardware reset.
    pub fn first() -> Settings
        ensures { result ≡ first_settings }
    {
        Settings {
            write_cache: true,
            read_look_ahead: true,
            transfer_mode: FIRST_MODE,
            in_standby: false,
        }
    }

    /// After a reset of this kind: 0 is a power cycle, 1 a hardware reset.
    pub fn after_reset(self, kind: u8) -> Settings
        ensures { result ≡ settings_at_reset kind self }
    {
        if kind == POWER_CYCLE || kind == HARDWARE {
            Settings::first()
        } else {
            self
        }
    }

    /// In standby, or out of it.
    pub fn with_standby(self, in_standby: bool) -> Settings
        ensures { result ≡ with_standby in_standby self }
    {
        Settings { in_standby, ..self }
    }

    /// What stands once sectors were read or written: the drive is active.
    pub fn active(self) -> Settings
        ensures { result ≡ active self }
    {
        self.with_standby(false)
    }

    /// With a feature as the host chooses it.
    pub fn with(self, feature: Feature) -> Settings
        ensures { result ≡ with_feature feature self }
    {
        match feature {
            Feature::WriteCache { enabled } => Settings {
                write_cache: enabled,
                ..self
            },
            Feature::ReadLookAhead { enabled } => Settings {
                read_look_ahead: enabled,
                ..self
            },
            Feature::TransferMode { mode } => Settings {
                transfer_mode: mode,
                ..self
            },
        }
    }
}
