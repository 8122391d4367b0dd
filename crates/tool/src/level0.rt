//! Level 0 discovery of a new drive, in hex.

ghost use Rattle.std.specs.Prelude.{◌≡◌, ◌⊎◌, IfOk, IfErr, Err, string_bytes};
ghost use Rattle.std.specs.Io.KnownBytes.{Appends};
ghost use Rattle.tool.specs.Level0.{discovery_text, level0_text};
ghost use Rattle.tool.specs.declared.ending.RunError.{RunError};

use crate::ending::RunError;
use crate::options::Options;
use crate::writing::write_text;
use basics::Profile;
use device_data::{discovery, field_discovery};
use sp_cells::DriveConfig;
use sp_tables::Tables;
use std::alloc::{AllocError, Global};
use std::io::Write;
use trusted_cmds::SidBlock;

/// The bytes of the discovery in hex.
fn discovery_text(alloc: Global, config: &DriveConfig) -> Result<String, AllocError>
    ensures { IfOk result (λ text. string_bytes text ≡ discovery_text config.now) }
{
    let tables = Tables::factory(alloc, config)?;
    match config.profile() {
        Profile::Base => hex::encode(alloc, discovery(&tables)),
        Profile::Field | Profile::Opal => {
            hex::encode(alloc, field_discovery(&tables, SidBlock::Free))
        }
    }
}

/// Prints the bytes that a drive as it leaves the factory gives to a TRUSTED RECEIVE of Level 0 discovery, 132 or those
/// 184 of the field profile, in hex, with status 0.
///
/// # Errors
///
/// Want of memory, and then nothing is printed; a call of the writer that fails.
pub fn run_level0<W: Write>(
    alloc: Global,
    output: &mut W,
    options: &Options,
) -> Result<u8, RunError>
    ensures printed { IfOk result (λ status. (status ≡ 0)
        × Appends (W.contents output.old) (W.contents output.new) (level0_text options.now)) }
    ensures memory { result ≡ Err RunError.Memory → W.contents output.new ≡ W.contents output.old }
    ensures errors { IfErr result (λ error. (error ≡ RunError.Memory) ⊎ (error ≡ RunError.Write)) }
{
    let mut line = discovery_text(alloc, &options.config())?;
    line.push_str("\n")?;
    write_text(output, line.as_bytes())?;
    Ok(0)
}
