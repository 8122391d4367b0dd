//! The registers of a port (AHCI 1.3.1, chapter 3).

use hba_regs::*;

/// Whether a register has this word.
fn reads(regs: &PortRegs, offset: u32, word: u32) -> bool {
    regs.read(offset) == Some(word)
}

/// What the registers that a device or the port sets have at the start: PxFB, PxCMD, PxTFD, PxSIG, PxSSTS; and what no host
/// writes: a word of the port, and one that is none.
fn begins_with_a_device() -> bool {
    let mut regs = PortRegs::new();
    let is_first = reads(&regs, 0x08, 0x400)
        && reads(&regs, 0x18, 0xc011)
        && reads(&regs, 0x20, 0x50)
        && reads(&regs, 0x24, 0x101)
        && reads(&regs, 0x28, 0x133);
    let is_read_only = regs.write(0x20, 0) == Err(RegError::ReadOnly);
    let is_none = regs.write(0x1c, 0) == Err(RegError::BadOffset);
    is_first && is_read_only && is_none
}

/// A port that is stopped, with FRE alone in PxCMD (AHCI 1.3.1, 3.3.7), takes no tag into PxSACT.
fn drops_tags() -> Result<bool, RegError> {
    let mut regs = PortRegs::new();
    regs.write(0x18, 0x10)?;
    let is_stopped = reads(&regs, 0x18, 0x4010);
    regs.write(0x34, 0x20)?;
    Ok(is_stopped && reads(&regs, 0x34, 0))
}

/// PxSACT and PxCI where tag 5 is issued; PxSACT, PxCI, PxTFD and PxIS where it has failed.
fn follows_a_command() -> bool {
    let mut regs = PortRegs::new();
    let tag = fis::Tag::low_bits(5);
    regs.set_issue(tag, true);
    let is_issued = reads(&regs, 0x34, 0x20) && reads(&regs, 0x38, 0x20);
    regs.clear_issue(tag);
    regs.clear_active(0x20);
    regs.set_task(0x51, 0x04);
    regs.raise(PxIs::SDBS);
    regs.raise(PxIs::TFES);
    let is_ended = reads(&regs, 0x34, 0) && reads(&regs, 0x38, 0);
    is_issued && is_ended && reads(&regs, 0x20, 0x0451) && reads(&regs, 0x10, 0x4000_0008)
}

/// PxIS where a host clears TFES; PxCMD where the port stops and starts.
fn clears_and_starts() -> Result<bool, RegError> {
    let mut regs = PortRegs::new();
    regs.raise(PxIs::SDBS);
    regs.raise(PxIs::TFES);
    regs.write(0x10, 0x4000_0000)?;
    let is_cleared = reads(&regs, 0x10, 0x0000_0008);
    regs.stop();
    let is_stopped = reads(&regs, 0x18, 0x4010);
    regs.start();
    Ok(is_cleared && is_stopped && reads(&regs, 0x18, 0xc011))
}

/// What a host has written, byte by byte: PxCLB and PxFB without the bits that their alignment takes (3.3.1, 3.3.3), PxIE and
/// PxSCTL; PxCLBU and PxFBU are 0.
fn keeps_each_byte() -> Result<bool, RegError> {
    let mut regs = PortRegs::new();
    regs.write(0x00, 0x9413_0605)?;
    regs.write(0x04, 0xffff_ffff)?;
    regs.write(0x08, 0x1413_1211)?;
    regs.write(0x0c, 0xffff_ffff)?;
    regs.write(0x14, 0x2423_2221)?;
    regs.write(0x2c, 0x3433_3231)?;
    regs.write(0x30, 0xffff_ffff)?;
    let are_places = reads(&regs, 0x00, 0x9413_0400)
        && reads(&regs, 0x04, 0)
        && reads(&regs, 0x08, 0x1413_1200)
        && reads(&regs, 0x0c, 0);
    let are_kept = reads(&regs, 0x14, 0x2423_2221)
        && reads(&regs, 0x2c, 0x3433_3231)
        && reads(&regs, 0x30, 0);
    Ok(are_places && are_kept)
}

/// What is added to the tags, byte by byte, and the device's status and error.
fn adds_each_byte() -> Result<bool, RegError> {
    let mut regs = PortRegs::new();
    regs.write(0x34, 0x4443_4241)?;
    regs.write(0x38, 0x0403_0281)?;
    regs.set_task(0x88, 0x77);
    let is_added = reads(&regs, 0x34, 0x4443_4241) && reads(&regs, 0x38, 0x0403_0281);
    Ok(is_added && reads(&regs, 0x20, 0x7788))
}

#[test]
fn words_of_the_registers(rt: HostRuntime) {
    let drops = drops_tags() == Ok(true);
    let clears = clears_and_starts() == Ok(true);
    assert!(rt; begins_with_a_device() && drops && follows_a_command() && clears);
}

#[test]
fn bytes_of_the_registers(rt: HostRuntime) {
    assert!(rt; keeps_each_byte() == Ok(true) && adds_each_byte() == Ok(true));
}
