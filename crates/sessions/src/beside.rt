//! What is kept beside rows and sessions: whether SID is blocked, how many random bytes were given, and of each ComID what
//! its host takes, and whether a reset of its stack is to be told.

ghost use Rattle.std.specs.Prelude.{◌≡◌, ◌<◌, ◌-◌};
ghost use Rattle.device_data.specs.Discovery.{first_com_id, com_ids};
ghost use Rattle.sessions.specs.Beside.{least_limits, new_channels, new_beside, channel_of, with_channel, with_limits, with_reset_stack, with_told_stack, with_drawn, beside_at_reset, room_of as room_in};
ghost use Rattle.sessions.specs.Block.{block_at_reset};

use basics::Profile;
use tcg_calls::call_shapes::limits::MOST_RESPONSE;
use trusted_cmds::SidBlock;

/// How many ComIDs sessions have.
pub const COM_IDS: usize = 4;

/// The first of them.
pub const FIRST_COM_ID: u16 = 0x1000;

/// The kind of a power cycle, and of a hardware reset.
const POWER_CYCLE: u8 = 0;

const HARDWARE: u8 = 1;

/// What a host takes at most (TCG Core 2.01, section 5.2.2): the bytes of a ComPacket, of a packet, and of a token.
#[derive(Clone, Copy, Debug, PartialEq, Eq)]
pub struct HostLimits {
    pub com_packet: u64,
    pub packet: u64,
    pub token: u64,
}

/// What each host takes (Opal SSC 2.01, section 4.1.1.1).
pub const LEAST_LIMITS: HostLimits = HostLimits {
    com_packet: 2048,
    packet: 2028,
    token: 1992,
};

impl HostLimits {
    /// How many bytes of tokens a response has room for, on a drive of this profile.
    pub fn room(&self, profile: Profile) -> u64
        ensures { result ≡ room_in profile self.now }
    {
        match profile {
            Profile::Base | Profile::Field => MOST_RESPONSE,
            Profile::Opal => {
                let com_packet = self.com_packet.saturating_sub(56) / 4 * 4;
                let packet = self.packet.saturating_sub(36) / 4 * 4;
                com_packet.min(packet.min(self.token.saturating_add(8)))
            }
        }
    }
}

/// What is kept of a ComID: what its host takes, and whether a reset of its stack is to be told.
#[derive(Clone, Copy, Debug, PartialEq, Eq)]
pub struct Channel {
    pub limits: HostLimits,
    pub was_reset: bool,
}

/// A ComID of which nothing was told, and whose stack nothing has reset.
const NEW_CHANNEL: Channel = Channel {
    limits: LEAST_LIMITS,
    was_reset: false,
};

/// Whether SID is blocked, how many random bytes were given, and what is kept of each ComID.
#[derive(Clone, Copy, Debug, PartialEq, Eq)]
pub struct Beside {
    pub block: SidBlock,
    pub drawn: u64,
    pub channels: [Channel; COM_IDS],
}

/// What a reset of this kind leaves of a block of SID.
fn block_at_reset(kind: u8, block: SidBlock) -> SidBlock
    ensures { result ≡ block_at_reset kind block }
{
    if kind == POWER_CYCLE || kind == HARDWARE && block.ends_at_hardware_reset() {
        SidBlock::Free
    } else {
        block
    }
}

impl Beside {
    /// That of a new drive.
    pub fn new() -> Beside
        ensures { result ≡ new_beside }
    {
        Beside {
            block: SidBlock::Free,
            drawn: 0,
            channels: [NEW_CHANNEL, NEW_CHANNEL, NEW_CHANNEL, NEW_CHANNEL],
        }
    }

    /// What is kept of a ComID.
    pub fn channel(&self, com_id: u16) -> Channel
        ensures { result ≡ channel_of self.now com_id }
    {
        match self
            .channels
            .get(usize::from(com_id.saturating_sub(FIRST_COM_ID)))
        {
            Some(channel) => *channel,
            None => NEW_CHANNEL,
        }
    }

    /// What is to be kept of a ComID.
    fn set_channel(&mut self, com_id: u16, channel: Channel)
        requires { com_id - first_com_id < com_ids }
        ensures { self.new ≡ with_channel com_id channel self.old }
    {
        self.channels[usize::from(com_id.saturating_sub(FIRST_COM_ID))] = channel;
    }

    /// A host told what it takes on a ComID.
    pub fn set_limits(&mut self, com_id: u16, limits: HostLimits)
        requires { com_id - first_com_id < com_ids }
        ensures { self.new ≡ with_limits com_id limits self.old }
    {
        let was_reset = self.channel(com_id).was_reset;
        self.set_channel(com_id, Channel { limits, was_reset });
    }

    /// The stack of a ComID was reset, which is to be told.
    pub fn reset_stack(&mut self, com_id: u16)
        requires { com_id - first_com_id < com_ids }
        ensures { self.new ≡ with_reset_stack com_id self.old }
    {
        self.set_channel(
            com_id,
            Channel {
                limits: LEAST_LIMITS,
                was_reset: true,
            },
        );
    }

    /// Nothing is to be told any more of the stack of a ComID.
    pub fn tell_stack(&mut self, com_id: u16)
        requires { com_id - first_com_id < com_ids }
        ensures { self.new ≡ with_told_stack com_id self.old }
    {
        let limits = self.channel(com_id).limits;
        self.set_channel(
            com_id,
            Channel {
                limits,
                was_reset: false,
            },
        );
    }

    /// So many random bytes more were given.
    pub fn draw(&mut self, count: u64)
        ensures { self.new ≡ with_drawn count self.old }
    {
        self.drawn = self.drawn.wrapping_add(count);
    }

    /// What a reset of this kind leaves.
    pub fn reset(&mut self, kind: u8)
        ensures { self.new ≡ beside_at_reset kind self.old }
    {
        self.block = block_at_reset(kind, self.block);
        self.channels = [NEW_CHANNEL, NEW_CHANNEL, NEW_CHANNEL, NEW_CHANNEL];
    }
}
