// Reading a frame of any kind.
ghost use Rattle.std.specs.Prelude.{◌≡◌};
ghost use Rattle.frames.specs.Frames.{refusal_typed, read_frame};
ghost use Rattle.frames.specs.Told.{told};
ghost use Rattle.octets.specs.Refusals.{status_of};

use frame_beacons::beacon::Beacon;
use frame_beacons::short::ShortBeacon;
use frame_kinds::judging::unknown;
use frame_requests::{
    DiscoveryRequest, DiscoveryResponse, Election, JoinRequest, JoinResponse, SlotRequest,
};
use frame_traffic::data_frame::DataHeader;
use frame_traffic::update::UpdateHeader;
use frames::answers::Frame;
use octets::refusals::Refusal;
use octets::stored::Stored;

// Why bytes are no frame of this type: document 01's first reason that applies.
#[tactic(auto, unfolding(frames::specs::Frames::refusal_typed))]
pub fn wanted(s: &[u8], code: u8) -> Result<(), Refusal>
    ensures { status_of result ≡ refusal_typed code s.now }
{
    match code {
        0x11 => DataHeader::refusal(s),
        0x21 => JoinRequest::refusal(s),
        0x22 => JoinResponse::refusal(s),
        0x23 => SlotRequest::refusal(s),
        0x24 => DiscoveryRequest::refusal(s),
        0x25 => DiscoveryResponse::refusal(s),
        0x26 => Election::refusal(s),
        0x31 => UpdateHeader::refusal(s),
        0x46 => Beacon::refusal(s),
        0x47 => ShortBeacon::refusal(s),
        _ => Err(unknown(s)),
    }
}

// Why bytes are no frame of any type.
pub fn refusal(s: &[u8]) -> Result<(), Refusal>
    ensures { status_of result ≡ (read_frame s.now).refusal }
{
    wanted(s, u8::read(s, 0))
}

// The frame that the bytes are, or why they are none.
#[tactic(auto, unfolding(frames::specs::Frames::refusal_typed, frames::specs::Frames::read_frame))]
pub fn read(s: &[u8]) -> Result<Frame, Refusal>
    ensures { told result ≡ read_frame s.now }
{
    let code = u8::read(s, 0);
    wanted(s, code)?;
    Ok(match code {
        0x11 => Frame::Data(DataHeader::of(s)),
        0x21 => Frame::JoinRequest(JoinRequest::of(s)),
        0x22 => Frame::JoinResponse(JoinResponse::of(s)),
        0x23 => Frame::SlotRequest(SlotRequest::of(s)),
        0x24 => Frame::DiscoveryRequest(DiscoveryRequest::of(s)),
        0x25 => Frame::DiscoveryResponse(DiscoveryResponse::of(s)),
        0x26 => Frame::Election(Election::of(s)),
        0x31 => Frame::Update(UpdateHeader::of(s)),
        0x46 => Frame::Beacon(Beacon::of(s)),
        0x47 => Frame::ShortBeacon(ShortBeacon::of(s)),
        // `wanted` refused every other type
        _ => unreachable!(),
    })
}
