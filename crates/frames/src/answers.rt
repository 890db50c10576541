// A frame of any kind, as one enum.

// The payload of data and the entries of an update stay in the caller's bytes.
#[derive(Drop)]
pub enum Frame {
    Data(frame_traffic::data_frame::DataHeader),
    JoinRequest(frame_requests::JoinRequest),
    JoinResponse(frame_requests::JoinResponse),
    SlotRequest(frame_requests::SlotRequest),
    DiscoveryRequest(frame_requests::DiscoveryRequest),
    DiscoveryResponse(frame_requests::DiscoveryResponse),
    Election(frame_requests::Election),
    Update(frame_traffic::update::UpdateHeader),
    Beacon(frame_beacons::beacon::Beacon),
    ShortBeacon(frame_beacons::short::ShortBeacon),
}
