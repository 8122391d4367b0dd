//! Calls of bytes alone: frames, token streams, the FISes of commands.

ghost use Rattle.std.specs.Prelude.{◌≡◌};
ghost use Rattle.library_calls.specs.Carries.{FramedAs, IsOpened};
ghost use Rattle.library_calls.specs.Copies.{IsWrittenOut};
ghost use Rattle.library_calls.specs.Spelled.{AskedAs, SpelledAs, command_asked, trusted_asked};
ghost use Rattle.library_calls.specs.Told.{DecodedAs, NamedAs};
ghost use Rattle.tcg_calls.specs.TokenTexts.{naming_of, token_text};

use compacket::Session;
use library_calls::byte_calls::{Carried, Count, Transfer};
use std::alloc::Global;
use tcg_calls::named_tokens::Naming;

/// [`library_calls::byte_calls::tokens_out`].
#[unsafe(no_mangle)]
pub extern "C" fn opal_raw_tokens(
    alloc: Global,
    by_name: bool,
    bytes: &[u8],
    into: &mut [u8],
) -> Count
    ensures { IsWrittenOut (token_text (naming_of by_name) bytes.now) into.old into.new result }
{
    library_calls::byte_calls::tokens_out(alloc, Naming::by_name(by_name), bytes, into)
}

/// [`library_calls::byte_calls::decoded_out`].
#[unsafe(no_mangle)]
pub extern "C" fn opal_raw_decoded(alloc: Global, kind: u32, bytes: &[u8], into: &mut [u8]) -> Count
    ensures { DecodedAs kind bytes.now into.old into.new result }
{
    library_calls::byte_calls::decoded_out(alloc, kind, bytes, into)
}

/// [`library_calls::byte_calls::named_call_out`].
#[unsafe(no_mangle)]
pub extern "C" fn opal_raw_call_named(alloc: Global, line: &[u8], into: &mut [u8]) -> Count
    ensures { NamedAs line.now into.old into.new result }
{
    library_calls::byte_calls::named_call_out(alloc, line, into)
}

/// [`library_calls::byte_calls::frame_out`].
#[unsafe(no_mangle)]
pub extern "C" fn opal_raw_frame(
    alloc: Global,
    com_id: u16,
    tsn: u32,
    hsn: u32,
    payload: &[u8],
    into: &mut [u8],
) -> Count
    ensures { FramedAs com_id (record { tsn = tsn; hsn = hsn }) payload.now into.old
        into.new result }
{
    library_calls::byte_calls::frame_out(alloc, com_id, Session { tsn, hsn }, payload, into)
}

/// [`library_calls::byte_calls::opened`].
#[unsafe(no_mangle)]
pub extern "C" fn opal_raw_opened(bytes: &[u8]) -> Carried
    ensures { IsOpened bytes.now result }
{
    library_calls::byte_calls::opened(bytes)
}

/// [`library_calls::byte_calls::transfer_fis`].
#[unsafe(no_mangle)]
pub extern "C" fn opal_raw_command_fis(
    command: u32,
    lba: u64,
    count: u32,
    tag: u8,
    into: &mut [u8],
) -> Count
    ensures { AskedAs (command_asked command lba count) tag into.old into.new result }
{
    library_calls::byte_calls::transfer_fis(command, &Transfer { lba, count }, tag, into)
}

/// [`library_calls::byte_calls::trusted_fis`].
#[unsafe(no_mangle)]
pub extern "C" fn opal_raw_trusted_fis(
    is_send: bool,
    protocol: u8,
    sp_specific: u16,
    blocks: u16,
    into: &mut [u8],
) -> Count
    ensures { SpelledAs (trusted_asked is_send protocol sp_specific blocks) 0 into.old into.new
        result }
{
    library_calls::byte_calls::trusted_fis(is_send, protocol, sp_specific, blocks, into)
}
