//! One look at a drive, or at a port and the drive behind it.

ghost use Rattle.std.specs.Prelude.{◌≡◌, ◌+◌, IfOk, is_some, List};
ghost use Rattle.fis.specs.Tags.{slot_count};
ghost use Rattle.sp_cells.specs.declared.names.TheConstants.{RANGES};
ghost use Rattle.history.specs.Facts.{facts};
ghost use Rattle.history.specs.History.{Act, log};
ghost use Rattle.history.specs.Opening.{Origin};
ghost use Rattle.drive.specs.State.{Agrees};
ghost use Rattle.drive.specs.Queue.{held_at};
ghost use Rattle.port.specs.Answers.{stage_at};
ghost use Rattle.port_history.specs.declared.stages.Stage.TheVariants.{Free};
ghost use Rattle.pictures.specs.Lists.{values_below};
ghost use Rattle.pictures.specs.Samples.{locks_by};

use crate::samples::calls::Calls;
use crate::samples::locks::Locks;
use crate::samples::registers::Registers;
use drive::Drive;
use fis::{SLOT_COUNT, Tag};
use locking::is_shadow_up;
use port::{LivePort, Stage};
use sp_cells::{RANGES, Rows, Sp};
use std::alloc::{AllocError, Global};
use std::marker::Model;

/// What one look shows.
#[derive(Drop)]
pub struct Sample {
    slots: Vec<Stage>,
    held: Vec<bool>,
    failed: bool,
    admin: Calls,
    locking: Calls,
    locks: Vec<Locks>,
    shadow: bool,
    registers: Option<Registers>,
}

impl Model for Sample {
    ghost use Rattle.pictures.specs.Samples.{Sample};

    ghost Value = { Sample };

    ghost view = { λ s. record {
      slots = s.slots.items;
      held = s.held.items;
      failed = s.failed;
      admin = s.admin;
      locking = s.locking;
      locks = s.locks.items;
      shadow = s.shadow;
      registers = s.registers;
    } };
}

/// The stages of a port's slots.
fn stages_of(alloc: Global, port: &LivePort) -> Result<Vec<Stage>, AllocError>
    ensures { IfOk result (λ stages. stages.items
        ≡ values_below (stage_at port.now.bare.slots) slot_count) }
{
    let mut stages = Vec::new(alloc);
    for tag in 0..SLOT_COUNT as u8 {
        stages.push(port.stage(Tag::low_bits(tag)))?;
    }
    Ok(stages)
}

/// The stages of slots that hold no command.
fn no_stages(alloc: Global) -> Result<Vec<Stage>, AllocError>
    ensures { IfOk result (λ stages. stages.items ≡ values_below (λ _. Free) slot_count) }
{
    let mut stages = Vec::new(alloc);
    for tag in 0..SLOT_COUNT as u8 {
        let _ = tag;
        stages.push(Stage::Free)?;
    }
    Ok(stages)
}

/// Which tags a drive holds.
fn held_by(alloc: Global, drive: &Drive) -> Result<Vec<bool>, AllocError>
    ensures { IfOk result (λ held. held.items
        ≡ values_below (λ tag. is_some (held_at drive.now.queue tag)) slot_count) }
{
    let mut held = Vec::new(alloc);
    for tag in 0..SLOT_COUNT as u8 {
        held.push(drive.holds(Tag::low_bits(tag)))?;
    }
    Ok(held)
}

/// The locks of each range by these rows, those of the global range first.
fn locks_by<R: Rows>(alloc: Global, rows: &R) -> Result<Vec<Locks>, AllocError>
    ensures { IfOk result (λ locks. locks.items
        ≡ values_below (locks_by (R.look_up rows.now)) (RANGES + 1)) }
{
    let mut locks = Vec::new(alloc);
    for range in 0..RANGES + 1 {
        locks.push(Locks::of(rows, range))?;
    }
    Ok(locks)
}

impl Sample {
    ghost use Rattle.std.specs.Prelude.{◌≡◌, IfOk, List, Option};
    ghost use Rattle.history.specs.History.{Act};
    ghost use Rattle.history.specs.Opening.{Origin};
    ghost use Rattle.drive.specs.State.{Agrees};
    ghost use Rattle.port.specs.Live.{LiveAgrees};
    ghost use Rattle.port_history.specs.declared.step.Step.{Step};
    ghost use Rattle.port_history.specs.declared.stages.Stage.{Stage};
    ghost use Rattle.pictures.specs.Samples.{drive_sample, port_sample, stages_with, calls_in};

    /// A look at a drive, beside these stages and registers of a port.
    fn beside(
        alloc: Global,
        slots: Vec<Stage>,
        registers: Option<Registers>,
        drive: &Drive,
    ) -> Result<Sample, AllocError>
        ensures { IfOk result (λ sample. (o : Origin) (acts : List Act) → Agrees drive.now o acts
            → sample ≡ stages_with slots.items registers (facts o (log o acts))) }
    {
        let rows = drive.in_force();
        let held = held_by(alloc, drive)?;
        let locks = locks_by(alloc, &rows)?;
        Ok(Sample {
            slots,
            held,
            failed: drive.failure().is_some(),
            admin: Calls::on(drive, Sp::Admin),
            locking: Calls::on(drive, Sp::Locking),
            locks,
            shadow: is_shadow_up(&rows),
            registers,
        })
    }

    /// A look at a drive: no slot holds a command.
    ///
    /// # Errors
    ///
    /// An allocation was refused.
    pub fn of_drive(alloc: Global, drive: &Drive) -> Result<Sample, AllocError>
        ensures { IfOk result (λ sample. (o : Origin) (acts : List Act) → Agrees drive.now o acts
            → sample ≡ drive_sample o acts) }
    {
        let slots = no_stages(alloc)?;
        let sample = Sample::beside(alloc, slots, None, drive)?;
        Ok(sample)
    }

    /// A look at a port and the drive behind it.
    ///
    /// # Errors
    ///
    /// An allocation was refused.
    pub fn of_port(alloc: Global, port: &LivePort) -> Result<Sample, AllocError>
        ensures { IfOk result (λ sample. (o : Origin) (list : List Step)
            → LiveAgrees port.now o list → sample ≡ port_sample o list) }
    {
        let slots = stages_of(alloc, port)?;
        let registers = Registers::of(port.regs());
        let sample = Sample::beside(alloc, slots, Some(registers), port.drive())?;
        Ok(sample)
    }

    /// The stages of the slots, by their tags.
    pub fn slots(&self) -> &[Stage]
        ensures { result.now ≡ self.now.slots }
    {
        self.slots.as_slice()
    }

    /// Which tags the drive holds.
    pub fn held(&self) -> &[bool]
        ensures { result.now ≡ self.now.held }
    {
        self.held.as_slice()
    }

    /// Whether the queue has failed.
    pub fn has_failed(&self) -> bool
        ensures { result ≡ self.now.failed }
    {
        self.failed
    }

    /// What is open on a security provider.
    pub fn calls(&self, sp: Sp) -> Calls
        ensures { result ≡ calls_in self.now sp }
    {
        match sp {
            Sp::Admin => self.admin,
            Sp::Locking => self.locking,
        }
    }

    /// The locks of each range, those of the global range first.
    pub fn locks(&self) -> &[Locks]
        ensures { result.now ≡ self.now.locks }
    {
        self.locks.as_slice()
    }

    /// Whether the shadow MBR is up.
    pub fn is_shadow_up(&self) -> bool
        ensures { result ≡ self.now.shadow }
    {
        self.shadow
    }

    /// The registers, of a port.
    pub fn registers(&self) -> Option<Registers>
        ensures { result ≡ self.now.registers }
    {
        self.registers
    }
}
