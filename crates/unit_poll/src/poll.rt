// A unit's poll, kept by its caller as 75 bytes: itself, and the last message of each of at most 24 others.
ghost use Rattle.std.specs.Prelude.{◌≡◌, false, not, ◌||◌, length, leb};
ghost use Rattle.std.proofs.lemmas.List.Edits.{sets};
ghost use Rattle.octets.specs.Layouts.{Bytes};
ghost use Rattle.octets.specs.Refusals.{status_of};
ghost use Rattle.unit_poll.specs.Outcomes.{named};
ghost use Rattle.unit_poll.specs.Voters.{known};
ghost use Rattle.unit_poll.specs.Places.{ok_places, sifted};
ghost use Rattle.unit_poll.specs.Polls.{hear_refusal, winning};
ghost use Rattle.unit_poll.specs.PollBytes.{places_in, in_use, voters_bytes, poll_in, holds_poll, poll_left, fresh_call, hear_call, named_in};

use crate::voter::Voter;
use frame_requests::Election;
use octets::addresses::is_address;
use octets::choices::either;
use octets::refusals::{Refusal, refuse_if};
use octets::stored::Stored;
use octets::zeros::put_zeros;

pub const POLL_SIZE: usize = 75;

// How many others there is room for.
const MOST_OTHERS: u8 = 24;

// Whether each place may stand before the next; behind the last there is none.
fn places_ok(s: &[u8], own: u16) -> bool
    ensures { result ≡ ok_places own (places_in s.now) }
{
    let mut good = true;
    let mut after = 0;
    for place in (0..MOST_OTHERS).rev() {
        let voter = Voter::at(s, place);
        good = voter.ordered(own, after) & good;
        after = voter.unit;
    }
    good
}

// Whether these are the bytes of a poll within rule.
pub fn holds_poll(s: &[u8]) -> bool
    ensures { result ≡ holds_poll s.now }
{
    if s.len() != POLL_SIZE {
        return false;
    }
    let own = u16::read(s, 0);
    is_address(own) & places_ok(s, own)
}

// Whether there is room for a message of this unit: it has a place, or there is an empty one.
fn has_room(s: &[u8], unit: u16) -> bool
    ensures { result ≡ (known unit (in_use (places_in s.now)) || not (leb 24 (length (in_use (places_in s.now))))) }
{
    (0..MOST_OTHERS).any(|place| {
        let held = Voter::at(s, place).unit;
        (held == 0) | (held == unit)
    })
}

// Why a poll within rule does not hear a frame. What the bytes are by their type is said here for `hear_in`, which has written to them when it needs that.
#[tactic(auto, unfolding(crate::specs::Polls::hear_refusal, crate::specs::PollBytes::poll_in))]
fn why_unheard(s: &[u8], frame: &[u8]) -> Result<(), Refusal>
    ensures refused { status_of result ≡ hear_refusal (poll_in s.now) frame.now }
    ensures small { Bytes s.now }
{
    Election::refusal(frame)?;
    let unit = Voter::from(Election::of(frame)).unit;
    refuse_if(unit == u16::read(s, 0), Refusal::Own)?;
    refuse_if(!has_room(s, unit), Refusal::Full)
}

// Sifts a message in: it passes the lower ones and takes the next place, and what stood there goes on, unless it was none or the same unit's. Every place is
// written, also where it stays.
fn sift(poll: &mut [u8], voter: Voter)
    ensures { poll.new ≡ sets poll.old 3 (voters_bytes (sifted false voter (places_in poll.old))) }
{
    let mut hand = voter;
    let mut done = false;
    for place in 0..MOST_OTHERS {
        let next = Voter::at(&poll[..], place);
        let passes = done | ((0 < next.unit) & (next.unit < hand.unit));
        let last = (next.unit == 0) | (next.unit == hand.unit);
        either(passes, next, hand).put(poll, place);
        hand = either(passes, hand, next);
        done = done | (!passes & last);
    }
}

// The best of the unit's own message and those that it heard.
fn leader(s: &[u8]) -> Voter
    ensures { result ≡ winning (poll_in s.now) }
{
    let mut leader = Voter {
        unit: u16::read(s, 0),
        priority: u8::read(s, 2),
    };
    for place in 0..MOST_OTHERS {
        let voter = Voter::at(s, place);
        if voter.unit == 0 {
            return leader;
        }
        leader = leader.better(voter);
    }
    leader
}

// Makes the poll of a unit that has heard none.
#[tactic(auto, unfolding(crate::specs::PollBytes::fresh_call))]
pub fn fresh_in(poll: &mut [u8], own: u16, priority: u8) -> Result<(), Refusal>
    ensures { poll_left (status_of result) poll.new ≡ fresh_call poll.old own priority }
{
    refuse_if(poll.len() != POLL_SIZE, Refusal::Rule)?;
    refuse_if(!is_address(own), Refusal::Field)?;
    own.store(poll, 0);
    priority.store(poll, 2);
    put_zeros(poll, 3, 72);
    Ok(())
}

// Hears an election message: it stands as its unit's last one.
#[tactic(auto, unfolding(crate::specs::PollBytes::hear_call))]
pub fn hear_in(poll: &mut [u8], frame: &[u8]) -> Result<(), Refusal>
    ensures { poll_left (status_of result) poll.new ≡ hear_call poll.old frame.now }
{
    refuse_if(!holds_poll(&poll[..]), Refusal::Rule)?;
    why_unheard(&poll[..], frame)?;
    sift(poll, Voter::from(Election::of(frame)));
    Ok(())
}

// The unit that is to be the manager.
pub fn winner_in(poll: &[u8]) -> Result<u16, Refusal>
    ensures { named result ≡ named_in poll.now }
{
    refuse_if(!holds_poll(poll), Refusal::Rule)?;
    Ok(leader(poll).unit)
}
