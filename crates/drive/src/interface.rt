//! What a drive says of itself, and what a host chooses of its interface (ACS-3, "IDENTIFY DEVICE", "SET FEATURES", and the
//! Power Management feature set).

ghost use Rattle.std.specs.Prelude.{◌≡◌, IfOk};

use crate::drive::Drive;
use device_data::{Settings, certificate_data, device_log, identity_of, protocol_list};
use std::alloc::AllocError;
use tper::sized;
use trusted_cmds::{Control, Feature, LogPages};

impl Drive {
    ghost use Rattle.device_data.specs.ErrorLog.{sized};
    ghost use Rattle.device_data.specs.Protocols.{protocol_list as protocols_told, certificate_data as certificates_told};
    ghost use Rattle.device_data.specs.Identity.{identity_of as identity_in};
    ghost use Rattle.device_data.specs.DevicePages.{device_log as pages_told};
    ghost use Rattle.device_data.specs.Settings.{with_feature, active};
    ghost use Rattle.drive.specs.Power.{power_after};

    /// The list of security protocols: as many bytes as the transfer has.
    pub(crate) fn protocols(&self, room: usize) -> Result<Vec<u8>, AllocError>
        ensures { IfOk result (λ v. v.items ≡ sized room protocols_told) }
    {
        sized(self.alloc, &protocol_list(), room)
    }

    /// The certificates: as many bytes as the transfer has.
    pub(crate) fn certificates(&self, room: usize) -> Result<Vec<u8>, AllocError>
        ensures { IfOk result (λ v. v.items ≡ sized room certificates_told) }
    {
        sized(self.alloc, &certificate_data(), room)
    }

    /// The data of IDENTIFY DEVICE.
    pub(crate) fn identify(&self) -> Result<Vec<u8>, AllocError>
        ensures { IfOk result (λ v. v.items
            ≡ identity_in self.now.tper.store.config self.now.settings) }
    {
        let view = self.tper.in_force();
        identity_of(self.alloc, view.config(), &self.settings)
    }

    /// The data of pages of the logs that tell of the device.
    pub(crate) fn device_log(&self, pages: &LogPages) -> Result<Vec<u8>, AllocError>
        ensures { IfOk result (λ v. v.items
            ≡ pages_told self.now.tper.store.config self.now.settings pages.now) }
    {
        let view = self.tper.in_force();
        device_log(self.alloc, view.config(), &self.settings, pages)
    }

    /// Takes a feature as the host chose it.
    pub(crate) fn choose(&mut self, feature: Feature)
        ensures { self.new
            ≡ record self.old { settings = with_feature feature self.old.settings } }
    {
        self.settings = self.settings.with(feature);
    }

    /// What the host has chosen.
    pub(crate) fn chosen(&self) -> Settings
        ensures { result ≡ self.now.settings }
    {
        self.settings
    }

    /// Goes to standby, or leaves it, as a command asks.
    pub(crate) fn set_power(&mut self, control: Control)
        ensures { self.new
            ≡ record self.old { settings = power_after control self.old.settings } }
    {
        match control {
            Control::Standby => self.settings = self.settings.with_standby(true),
            Control::Idle => self.settings = self.settings.with_standby(false),
            Control::SetMultiple | Control::CheckPowerMode | Control::Diagnose => {}
        }
    }

    /// Leaves standby, as sectors are read or written.
    #[inline(always)]
    pub(crate) fn wake(&mut self)
        ensures { self.new ≡ record self.old { settings = active self.old.settings } }
    {
        self.settings = self.settings.active();
    }
}
