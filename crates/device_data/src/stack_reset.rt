//! The reset of a ComID's protocol stack (TCG Core 2.01, section 3.3.4.7.5).

ghost use Rattle.std.specs.Prelude.{◌≡◌};
ghost use Rattle.device_data.specs.StackReset.{is_stack_reset, stack_answer};

/// The code of the request.
const STACK_RESET: u8 = 2;

/// How many bytes tell what came of a request.
pub const STACK_ANSWER_LENGTH: usize = 16;

/// Whether a payload asks for a reset of the stack of this ComID: it begins with the ComID, two zeros and the code of the
/// request, 00000002h.
pub fn is_stack_reset(com_id: u16, payload: &[u8]) -> bool
    ensures { result ≡ is_stack_reset com_id payload.now }
{
    match payload.first_chunk::<8>() {
        Some(request) => {
            u64::from_be_bytes(*request) == u64::from(com_id) * (1 << 48) + u64::from(STACK_RESET)
        }
        None => false,
    }
}

/// What is told of a reset of the stack of a ComID: that it was done, or that there is nothing to tell.
pub fn stack_answer(com_id: u16, was_reset: bool) -> [u8; STACK_ANSWER_LENGTH]
    ensures { result ≡ stack_answer com_id was_reset }
{
    let [high, low] = com_id.to_be_bytes();
    if was_reset {
        [
            high,
            low,
            0,
            0,
            0,
            0,
            0,
            STACK_RESET,
            0,
            0,
            0,
            4,
            0,
            0,
            0,
            0,
        ]
    } else {
        [high, low, 0, 0, 0, 0, 0, 0, 0, 0, 0, 0, 0, 0, 0, 0]
    }
}
