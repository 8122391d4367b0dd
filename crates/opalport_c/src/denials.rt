//! FISes and denials that a caller from outside is told.

ghost use Rattle.std.specs.Prelude.{◌≡◌, ◌++◌, IfOk, OnOk, None, Some};
ghost use Rattle.audit.specs.AuditText.{line_text};
ghost use Rattle.library_calls.specs.Copies.{IsWrittenOut};

use crate::drive_desk::DriveDesk;
use audit::{AuditLine, line_bytes};
use library_calls::byte_calls::{Count, copy_out, copy_text};
use library_calls::denied::Denied;
use std::alloc::Global;

impl DriveDesk {
    ghost use Rattle.std.specs.Prelude.{◌≡◌, ◌⊎◌, List, ℕ};
    ghost use Rattle.opalport_c.specs.Denials.{denial_at, denied_at};

    /// What denied the last command, as numbers.
    pub fn denied(&self, client: u32) -> Denied
        ensures { result ≡ denied_at self.now client }
    {
        match (&self.done, &self.answer.denied) {
            (None, Some(why)) => Denied::by(self.answered, client, why),
            _ => Denied::none(),
        }
    }

    /// Copies the line of the audit log that tells what denied the last command, into a buffer: none, where nothing did.
    pub fn copy_denial(&mut self, alloc: Global, client: u32, into: &mut [u8]) -> Count
        ensures told { IsWrittenOut (denial_at self.old client) into.old into.new result }
        ensures kept { self.new ≡ self.old }
    {
        if self.done.is_some() {
            return copy_out(&[], into);
        }
        let Some(why) = self.answer.denied.take() else {
            return copy_out(&[], into);
        };
        let line = AuditLine {
            step: self.answered,
            client,
            why,
        };
        let told = copy_text(line_bytes(alloc, &line), into);
        self.answer.denied = Some(line.why);
        told
    }
}
