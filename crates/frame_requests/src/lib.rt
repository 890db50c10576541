// The five kinds that a unit and the manager send each other, and the one by which units choose a manager. Of each: its record, the record of a
// frame's bytes, whether it keeps its rules, and its numbers, the type first; and what refuses its bytes, where a call wants the kind alone.
#![tactic(auto)]

ghost use Rattle.std.specs.Prelude.{◌≡◌, [], ◌∷◌};
ghost use Rattle.std.proofs.lemmas.List.Edits.{sets};
ghost use Rattle.octets.specs.Layouts.{bytes};
ghost use Rattle.frame_requests.specs.Requests.{join_request, join_request_values, join_response, join_response_values, slot_request, slot_request_values, discovery_request, discovery_request_values, discovery_response, discovery_response_values, election, election_values};
ghost use Rattle.frame_kinds.specs.Reading.{refusal_as};
ghost use Rattle.octets.specs.Refusals.{status_of};
ghost use Rattle.frame_kinds.specs.Shape.{values_in};

use frame_kinds::judging::refused;
use octets::addresses::is_address;
use octets::refusals::Refusal;
use octets::stored::Stored;

// 0x21, the join request: a unit asks to be a member.
#[derive(Clone, Copy)]
pub struct JoinRequest {
    pub node: u16,
    pub capabilities: u8,
    pub network: u16,
    pub slots: u8,
}

impl JoinRequest {
    pub fn of(s: &[u8]) -> JoinRequest
        ensures { join_request_values result ≡ values_in join_request s.now }
    {
        JoinRequest {
            node: u16::read(s, 1),
            capabilities: u8::read(s, 3),
            network: u16::read(s, 4),
            slots: u8::read(s, 6),
        }
    }

    pub fn good(self) -> bool
        ensures { result ≡ join_request.rule (join_request_values self) [] }
    {
        is_address(self.node)
    }

    pub fn refusal(s: &[u8]) -> Result<(), Refusal>
        ensures { status_of result ≡ refusal_as join_request s.now }
    {
        refused(s, 0x21, 8, JoinRequest::of(s).good())
    }

    pub fn numbers(self) -> [u32; 5]
        ensures { result ≡ join_request.code ∷ join_request_values self }
    {
        [
            0x21,
            u32::from(self.node),
            u32::from(self.capabilities),
            u32::from(self.network),
            u32::from(self.slots),
        ]
    }
}

// 0x22, the join response: the manager grants a slot, or none.
#[derive(Clone, Copy)]
pub struct JoinResponse {
    pub node: u16,
    pub status: u8,
    pub slot: u16,
    pub superframe_time: u32,
    pub network: u16,
}

impl JoinResponse {
    pub fn of(s: &[u8]) -> JoinResponse
        ensures { join_response_values result ≡ values_in join_response s.now }
    {
        JoinResponse {
            node: u16::read(s, 1),
            status: u8::read(s, 3),
            slot: u16::read(s, 4),
            superframe_time: u32::read(s, 6),
            network: u16::read(s, 10),
        }
    }

    pub fn good(self) -> bool
        ensures { result ≡ join_response.rule (join_response_values self) [] }
    {
        is_address(self.node)
            & (1 <= self.network)
            & (((self.status == 0) & (self.slot < 100))
                | ((self.status == 1) & (self.slot == 0xFFFF)))
    }

    pub fn refusal(s: &[u8]) -> Result<(), Refusal>
        ensures { status_of result ≡ refusal_as join_response s.now }
    {
        refused(s, 0x22, 13, JoinResponse::of(s).good())
    }

    pub fn numbers(self) -> [u32; 6]
        ensures { result ≡ join_response.code ∷ join_response_values self }
    {
        [
            0x22,
            u32::from(self.node),
            u32::from(self.status),
            u32::from(self.slot),
            self.superframe_time,
            u32::from(self.network),
        ]
    }

    // Writes the type and the fields where they stand, from the buffer's start.
    pub fn put(self, out: &mut [u8])
        ensures { out.new ≡ sets out.old 0 (bytes (1 ∷ join_response.widths) (join_response.code ∷ join_response_values self)) }
    {
        0x22u8.store(out, 0);
        self.node.store(out, 1);
        self.status.store(out, 3);
        self.slot.store(out, 4);
        self.superframe_time.store(out, 6);
        self.network.store(out, 10);
    }
}

// 0x23, the slot request: a member asks for more slots or fewer.
#[derive(Clone, Copy)]
pub struct SlotRequest {
    pub node: u16,
    pub slots: u8,
    pub priority: u8,
    pub reason: u8,
}

impl SlotRequest {
    pub fn of(s: &[u8]) -> SlotRequest
        ensures { slot_request_values result ≡ values_in slot_request s.now }
    {
        SlotRequest {
            node: u16::read(s, 1),
            slots: u8::read(s, 3),
            priority: u8::read(s, 4),
            reason: u8::read(s, 5),
        }
    }

    pub fn good(self) -> bool
        ensures { result ≡ slot_request.rule (slot_request_values self) [] }
    {
        is_address(self.node)
    }

    pub fn refusal(s: &[u8]) -> Result<(), Refusal>
        ensures { status_of result ≡ refusal_as slot_request s.now }
    {
        refused(s, 0x23, 7, SlotRequest::of(s).good())
    }

    pub fn numbers(self) -> [u32; 5]
        ensures { result ≡ slot_request.code ∷ slot_request_values self }
    {
        [
            0x23,
            u32::from(self.node),
            u32::from(self.slots),
            u32::from(self.priority),
            u32::from(self.reason),
        ]
    }
}

// 0x24, the discovery request: a unit looks for a network.
#[derive(Clone, Copy)]
pub struct DiscoveryRequest {
    pub node: u16,
    pub capabilities: u8,
    pub role: u8,
    pub max_hops: u8,
}

impl DiscoveryRequest {
    pub fn of(s: &[u8]) -> DiscoveryRequest
        ensures { discovery_request_values result ≡ values_in discovery_request s.now }
    {
        DiscoveryRequest {
            node: u16::read(s, 1),
            capabilities: u8::read(s, 3),
            role: u8::read(s, 4),
            max_hops: u8::read(s, 5),
        }
    }

    pub fn good(self) -> bool
        ensures { result ≡ discovery_request.rule (discovery_request_values self) [] }
    {
        is_address(self.node)
    }

    pub fn refusal(s: &[u8]) -> Result<(), Refusal>
        ensures { status_of result ≡ refusal_as discovery_request s.now }
    {
        refused(s, 0x24, 7, DiscoveryRequest::of(s).good())
    }

    pub fn numbers(self) -> [u32; 5]
        ensures { result ≡ discovery_request.code ∷ discovery_request_values self }
    {
        [
            0x24,
            u32::from(self.node),
            u32::from(self.capabilities),
            u32::from(self.role),
            u32::from(self.max_hops),
        ]
    }
}

// 0x25, the discovery response: a manager answers a unit that looks for a network.
#[derive(Clone, Copy)]
pub struct DiscoveryResponse {
    pub manager: u16,
    pub network: u16,
    pub size: u8,
    pub free: u8,
    pub quality: u8,
    pub uptime: u32,
}

impl DiscoveryResponse {
    pub fn of(s: &[u8]) -> DiscoveryResponse
        ensures { discovery_response_values result ≡ values_in discovery_response s.now }
    {
        DiscoveryResponse {
            manager: u16::read(s, 1),
            network: u16::read(s, 3),
            size: u8::read(s, 5),
            free: u8::read(s, 6),
            quality: u8::read(s, 7),
            uptime: u32::read(s, 8),
        }
    }

    pub fn good(self) -> bool
        ensures { result ≡ discovery_response.rule (discovery_response_values self) [] }
    {
        is_address(self.manager) & (1 <= self.network)
    }

    pub fn refusal(s: &[u8]) -> Result<(), Refusal>
        ensures { status_of result ≡ refusal_as discovery_response s.now }
    {
        refused(s, 0x25, 13, DiscoveryResponse::of(s).good())
    }

    pub fn numbers(self) -> [u32; 7]
        ensures { result ≡ discovery_response.code ∷ discovery_response_values self }
    {
        [
            0x25,
            u32::from(self.manager),
            u32::from(self.network),
            u32::from(self.size),
            u32::from(self.free),
            u32::from(self.quality),
            self.uptime,
        ]
    }
}

// 0x26, the election message: a unit stands for manager, at its priority.
#[derive(Clone, Copy)]
pub struct Election {
    pub node: u16,
    pub priority: u8,
}

impl Election {
    pub fn of(s: &[u8]) -> Election
        ensures { election_values result ≡ values_in election s.now }
    {
        Election {
            node: u16::read(s, 1),
            priority: u8::read(s, 3),
        }
    }

    pub fn good(self) -> bool
        ensures { result ≡ election.rule (election_values self) [] }
    {
        is_address(self.node)
    }

    pub fn refusal(s: &[u8]) -> Result<(), Refusal>
        ensures { status_of result ≡ refusal_as election s.now }
    {
        refused(s, 0x26, 5, Election::of(s).good())
    }

    pub fn numbers(self) -> [u32; 3]
        ensures { result ≡ election.code ∷ election_values self }
    {
        [0x26, u32::from(self.node), u32::from(self.priority)]
    }
}
