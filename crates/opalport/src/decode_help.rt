//! What `decode --help` says.

/// What `decode --help` says of kinds and statuses.
pub(crate) const KINDS: &str = "\
KIND is one of:
  level0      Level 0 discovery, with its features
  compacket   a ComPacket, with its packet, its subpacket and its tokens by their names
  fis         a FIS: Register - Host to Device, Register - Device to Host, Set Device Bits,
              DMA Setup or PIO Setup, by its first byte
  identify    the 512 bytes of IDENTIFY DEVICE, with each word that is not 0
  log00       the directory of the logs
  log10       the log of the last queued error
  log30       a page of the IDENTIFY DEVICE data log

A line is the name of a field, a blank and its value: decimal, 0x and hex, or a text in quotes.
Blanks and line ends may stand anywhere in HEX; bytes behind the structure are not looked at.

Status: 0 done, 2 bytes that are cut off or wrong, bad usage or an error";
