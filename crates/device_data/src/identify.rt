//! IDENTIFY DEVICE (ACS-3, IDENTIFY DEVICE data).

ghost use Rattle.std.specs.Prelude.{◌≡◌, ◌≤◌, ◌<◌, ◌%◌, IfOk, true, length, slice_index_or};
ghost use Rattle.basics.specs.Sums.{byte_sum};
ghost use Rattle.basics.specs.declared.profile.Profile.TheVariants.{Opal};
ghost use Rattle.sp_cells.specs.Config.{Config};
ghost use Rattle.device_data.specs.Identity.{sectors_word, identify_word, identity, text_word, is_between, firmware, has_text, name_word, short_capacity, driver_word, mode_bit, chosen_bits, settings_word, is_of_settings, field_word, field_identity, is_of_features, features_word, own_word, opal_word, opal_words, has_checksum, opal_identity, identity_in, identity_of};
ghost use Rattle.device_data.specs.declared.settings.Settings.{Settings};

use crate::settings::Settings;
use basics::{Profile, byte_sum};
use sp_cells::DriveConfig;
use std::alloc::{AllocError, Global};
use trusted_cmds::{MOST_TRIM_BLOCKS, is_multiword, is_ultra};

/// How many words an answer to IDENTIFY DEVICE has.
const WORDS: u16 = 256;

/// A word of the number of sectors, which stands from word 100 on.
fn sectors_word(sectors: u64, word: u16) -> u16
    requires first { 100 ≤ word }
    requires last { word ≤ 103 }
    ensures { result ≡ sectors_word sectors word }
{
    (sectors >> (16 * (u32::from(word) - 100)) & 0xffff) as u16
}

/// A word of the answer.
fn identify_word(sectors: u64, word: u16) -> u16
    ensures { result ≡ identify_word sectors word }
{
    match word {
        48 => 0x4001,
        75 => 0x001f,
        76 => 0x0100,
        83 => 0x6400,
        100..=103 => sectors_word(sectors, word),
        _ => 0,
    }
}

/// The 512 bytes that a drive of so many sectors answers to IDENTIFY DEVICE: 256 words, of which the
/// low byte comes first. Words 48, 75, 76 and 83 tell of trusted computing, the queue and addresses of
/// 48 bits, words 100 to 103 how many sectors there are; all others are 0.
pub fn identity(alloc: Global, sectors: u64) -> Result<Vec<u8>, AllocError>
    ensures { IfOk result (λ bytes. bytes.items ≡ identity sectors) }
{
    let mut bytes = Vec::with_capacity(alloc, 2 * usize::from(WORDS))?;
    for word in 0..WORDS {
        bytes.extend_from_slice(&identify_word(sectors, word).to_le_bytes())?;
    }
    Ok(bytes)
}

/// The version of the drive's firmware.
const FIRMWARE: [u8; 3] = *b"1.0";

/// The most sectors that an address of 28 bits reaches.
const SHORT_SECTORS: u64 = 0xfff_ffff;

/// A character of a text, and blanks behind it.
fn character(text: &[u8], at: usize) -> u8
    ensures { result ≡ slice_index_or text.now at 32 }
{
    match text.get(at) {
        Some(byte) => *byte,
        None => 32,
    }
}

/// Two characters of a text, the first in the upper byte.
fn text_word(text: &[u8], at: u16) -> u16
    requires { at < 256 }
    ensures { result ≡ text_word text.now at }
{
    let at = 2 * usize::from(at);
    256 * u16::from(character(text, at)) + u16::from(character(text, at + 1))
}

/// Whether a word has characters of a name.
fn has_text(word: u16) -> bool
    ensures { result ≡ has_text word }
{
    matches!(word, 10..=19 | 23..=26 | 27..=46)
}

/// A word of the serial number, the firmware's version or the model number.
fn name_word(config: &DriveConfig, word: u16) -> u16
    requires { has_text word ≡ true }
    ensures { result ≡ name_word config.now.serial config.now.model word }
{
    match word {
        10..=19 => text_word(config.serial(), word - 10),
        23..=26 => text_word(&FIRMWARE, word - 23),
        _ => text_word(config.model(), word - 27),
    }
}

/// How many sectors an address of 28 bits can reach.
fn short_capacity(sectors: u64) -> u32
    ensures { result ≡ short_capacity sectors }
{
    sectors.min(SHORT_SECTORS) as u32
}

/// A word that tells a driver how it may talk to the drive, or one that each drive has.
fn driver_word(sectors: u64, word: u16) -> u16
    ensures { result ≡ driver_word sectors word }
{
    match word {
        0 => 0x0040,
        49 => 0x0f00,
        53 => 0x0006,
        60 => (short_capacity(sectors) % 65_536) as u16,
        61 => (short_capacity(sectors) / 65_536) as u16,
        64 => 0x0003,
        65..=68 => 120,
        76 => 0x010e,
        80 => 0x07f0,
        82 => 0x0060,
        83 => 0x7400,
        84 => 0x4020,
        86 => 0x3400,
        87 => 0x4020,
        _ => identify_word(sectors, word),
    }
}

/// The bit of a mode in the upper byte of a word, where a mode of its kind is chosen.
fn mode_bit(is: bool, mode: u8) -> u16
    requires { is ≡ true → mode % 16 < 8 }
    ensures { result ≡ mode_bit is mode }
{
    if is { 1 << (8 + mode % 16) } else { 0 }
}

/// Whether the write cache and read look-ahead are enabled, in bits 5 and 6.
fn chosen_bits(settings: &Settings) -> u16
    ensures value { result ≡ chosen_bits settings.now }
    ensures small { result ≤ 0x60 }
{
    let cache = if settings.write_cache { 0x20 } else { 0 };
    let look_ahead = if settings.read_look_ahead { 0x40 } else { 0 };
    cache + look_ahead
}

/// A word that tells what a host has chosen.
fn settings_word(settings: &Settings, word: u16) -> u16
    requires { is_of_settings word ≡ true }
    ensures { result ≡ settings_word settings.now word }
{
    let mode = settings.transfer_mode;
    match word {
        63 => 0x0007 + mode_bit(is_multiword(mode), mode),
        85 => chosen_bits(settings),
        _ => 0x007f + mode_bit(is_ultra(mode), mode),
    }
}

/// A word of the answer under `Field`.
fn field_word(config: &DriveConfig, settings: &Settings, word: u16) -> u16
    ensures { result ≡ field_word config.now settings.now word }
{
    if has_text(word) {
        name_word(config, word)
    } else if matches!(word, 63 | 85 | 88) {
        settings_word(settings, word)
    } else {
        driver_word(config.sectors(), word)
    }
}

/// The 512 bytes of the answer under `Field`.
fn field_identity(
    alloc: Global,
    config: &DriveConfig,
    settings: &Settings,
) -> Result<Vec<u8>, AllocError>
    ensures { IfOk result (λ bytes. bytes.items ≡ field_identity config.now settings.now) }
{
    let mut bytes = Vec::with_capacity(alloc, 2 * usize::from(WORDS))?;
    for word in 0..WORDS {
        bytes.extend_from_slice(&field_word(config, settings, word).to_le_bytes())?;
    }
    Ok(bytes)
}

/// How many sectors a block by PIO has.
const SECTORS_IN_BLOCK: u16 = 1;

/// What says that the last word has a checksum.
const HAS_CHECKSUM: u8 = 0xa5;

/// Whether a word tells which commands and features there are, or which of them are enabled.
fn is_of_features(word: u16) -> bool
    ensures { result ≡ is_of_features word }
{
    word == 82 || word == 84 || word == 85 || word == 87
}

/// A word that tells which commands and features there are, or which of them are enabled, under `Opal`.
fn features_word(settings: &Settings, word: u16) -> u16
    ensures { result ≡ features_word settings.now word }
{
    match word {
        82 => 0x0068,
        85 => chosen_bits(settings) + 0x0008,
        _ => 0x4060,
    }
}

/// A word of the answer under `Opal`, other than these and the last.
fn own_word(config: &DriveConfig, settings: &Settings, word: u16) -> u16
    ensures { result ≡ own_word config.now settings.now word }
{
    match word {
        47 => 0x8000 + SECTORS_IN_BLOCK,
        59 => 0x0100 + SECTORS_IN_BLOCK,
        69 => 0x4020,
        86 => 0xb400,
        105 => MOST_TRIM_BLOCKS,
        119 | 120 => 0x4000,
        169 | 217 => 0x0001,
        222 => 0x103e,
        _ => field_word(config, settings, word),
    }
}

/// A word of the answer under `Opal`, other than the last.
fn opal_word(config: &DriveConfig, settings: &Settings, word: u16) -> u16
    ensures { result ≡ opal_word config.now settings.now word }
{
    if is_of_features(word) {
        features_word(settings, word)
    } else {
        own_word(config, settings, word)
    }
}

/// The bytes of all words but the last under `Opal`.
fn opal_words(
    alloc: Global,
    config: &DriveConfig,
    settings: &Settings,
) -> Result<Vec<u8>, AllocError>
    ensures { IfOk result (λ bytes. bytes.items ≡ opal_words config.now settings.now) }
{
    let mut bytes = Vec::with_capacity(alloc, 2 * usize::from(WORDS))?;
    for word in 0..WORDS - 1 {
        bytes.extend_from_slice(&opal_word(config, settings, word).to_le_bytes())?;
    }
    Ok(bytes)
}

/// The 512 bytes of the answer under `Opal`. The last one makes the sum of all a multiple of 256.
fn opal_identity(
    alloc: Global,
    config: &DriveConfig,
    settings: &Settings,
) -> Result<Vec<u8>, AllocError>
    ensures { IfOk result (λ bytes. bytes.items ≡ opal_identity config.now settings.now) }
{
    let mut bytes = opal_words(alloc, config, settings)?;
    bytes.push(HAS_CHECKSUM)?;
    let sum = byte_sum(&bytes);
    bytes.push(sum.wrapping_neg())?;
    Ok(bytes)
}

/// Under `Opal` the last word is a checksum that holds: byte 510 says that there is one, and the sum of all 512 bytes is a
/// multiple of 256.
#[tactic(auto, using(crate::proofs::Identities::opal_length, crate::proofs::Identities::opal_checked, crate::proofs::Identities::opal_sum))]
pub fn laws_of_identity()
    ensures length { (config : Config) (settings : Settings)
        → length (identity_in Opal config settings) ≡ 512 }
    ensures told { (config : Config) (settings : Settings)
        → slice_index_or (identity_in Opal config settings) 510 0 ≡ 0xa5 }
    ensures sum { (config : Config) (settings : Settings)
        → byte_sum (identity_in Opal config settings) % 256 ≡ 0 }
{}

/// The 512 bytes that a drive answers to IDENTIFY DEVICE by its configuration and by what a host has chosen. Under `Base`
/// they are those of `identity`. Under `Field` they also have the names of the drive, the sectors that an address of 28 bits
/// reaches, and the words by which a driver finds how to talk to it. Under `Opal` they tell besides how many sectors a block
/// by PIO has, that there are power modes, what the medium and the transport are, and a checksum.
pub fn identity_of(
    alloc: Global,
    config: &DriveConfig,
    settings: &Settings,
) -> Result<Vec<u8>, AllocError>
    ensures { IfOk result (λ bytes. bytes.items ≡ identity_of config.now settings.now) }
{
    match config.profile() {
        Profile::Base => identity(alloc, config.sectors()),
        Profile::Field => field_identity(alloc, config, settings),
        Profile::Opal => opal_identity(alloc, config, settings),
    }
}
