//! Tags that seats claim and give back.

ghost use Rattle.std.specs.Prelude.{◌≡◌};

use fis::Tag;
use locked_port::tag_board::{TagBoard, TagSeat};
use std::alloc::{AllocError, Global};
use std::thread;
use std::thread::Threads;

/// Whether the next claim of a seat gets this tag.
fn claims(seat: &mut TagSeat, number: u8) -> bool {
    seat.claim() == Some(Tag::low_bits(number))
}

/// Whether the numbers of 32 claims are 0 to 31, and the 33rd finds none.
fn claims_all(seat: &mut TagSeat) -> bool {
    let mut are = true;
    for number in 0..32u8 {
        are &= claims(seat, number);
    }
    are && seat.claim().is_none()
}

/// Whether a tag that is given back is claimed again.
fn claims_again(seat: &mut TagSeat, number: u8) -> bool {
    let tag = Tag::low_bits(number);
    if !seat.holds(tag) {
        return false;
    }
    seat.release(tag);
    !seat.holds(tag) && claims(seat, number)
}

/// Whether that holds of a new board.
fn is_claimed(alloc: Global) -> Result<bool, AllocError> {
    let (_board, mut seat) = TagBoard::new(alloc)?;
    let all = claims_all(&mut seat);
    Ok(all && claims_again(&mut seat, 7))
}

/// The seat after so many claims.
fn after_claims(mut seat: TagSeat, many: u8) -> TagSeat
    ensures { result.board ≡ seat.board }
{
    for _ in 0..many {
        let _tag = seat.claim();
    }
    seat
}

/// How many tags two seats hold of which one lacks them, none where both hold one.
fn held_apart(one: &TagSeat, two: &TagSeat) -> Option<u8> {
    let mut held = 0u8;
    for number in 0..32u8 {
        let tag = Tag::low_bits(number);
        if one.holds(tag) && two.holds(tag) {
            return None;
        }
        if one.holds(tag) || two.holds(tag) {
            held = held.wrapping_add(1);
        }
    }
    Some(held)
}

/// Whether a seat holds the first so many tags.
fn holds_first(seat: &TagSeat, many: u8) -> bool {
    let mut holds = true;
    for number in 0..many {
        holds &= seat.holds(Tag::low_bits(number));
    }
    holds
}

/// Whether two threads that claim ten tags each hold twenty tags apart, and the seat that is joined of theirs holds these.
fn both_claim<R: Threads>(rt: &R, seat: TagSeat, other: TagSeat) -> bool
    requires { other.board ≡ seat.board }
{
    let (one, two) = thread::join(
        rt,
        move || -> TagSeat
            ensures { result.board ≡ seat.board }
        { after_claims(seat, 10) },
        move || -> TagSeat
            ensures { result.board ≡ other.board }
        { after_claims(other, 10) },
    );
    let are_apart = held_apart(&one, &two) == Some(20);
    let whole = one.join(two);
    are_apart && holds_first(&whole, 20)
}

/// Whether that holds of a new board.
fn is_apart<R: Threads>(rt: &R, alloc: Global) -> Result<bool, AllocError> {
    let (_board, mut seat) = TagBoard::new(alloc)?;
    let other = seat.split()?;
    Ok(both_claim(rt, seat, other))
}

/// Whether all tags are claimed and no more; and two threads that claim at once from seats of one board hold no tag in common,
/// and one seat that is joined of them holds what both held.
pub fn are_claimed<R: Threads>(rt: &R, alloc: Global) -> bool {
    matches!(is_claimed(alloc), Ok(true)) && matches!(is_apart(rt, alloc), Ok(true))
}
