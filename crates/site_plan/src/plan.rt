// A site's plan: the seven numbers that it is made from, and when they are refused.
ghost use Rattle.std.specs.Prelude.{◌≡◌, ◌&&◌, cond, leb, Some, None};
ghost use Rattle.site_plan.specs.Plans.{plan_rule, plan_of, told_plan};

use octets::addresses::is_address;
use octets::refusals::Refusal;

// `beacon_type` is the kind of beacons that its manager sends, by its type.
// Kept: it is a number, since a stored plan may hold any, and `plan_rule` refuses those that name no kind.
#[derive(Clone, Copy)]
pub struct Plan {
    pub network: u16,
    pub manager: u16,
    pub max_hops: u8,
    pub rows: u8,
    pub data_slots: u8,
    pub slot_ms: u16,
    pub beacon_type: u8,
}

// The plan of seven numbers, if each fits into its field.
fn fitting(
    network: u16,
    manager: u16,
    max_hops: u32,
    rows: u32,
    data_slots: u32,
    slot_ms: u32,
    beacon_type: u32,
) -> Option<Plan>
    ensures { result ≡ cond (leb max_hops 255 && leb rows 255 && leb data_slots 255 && leb slot_ms 65535 && leb beacon_type 255) (Some (record { network = network; manager = manager; max_hops = max_hops; rows = rows; data_slots = data_slots; slot_ms = slot_ms; beacon_type = beacon_type })) None }
{
    Some(Plan {
        network,
        manager,
        max_hops: u8::try_from(max_hops).ok()?,
        rows: u8::try_from(rows).ok()?,
        data_slots: u8::try_from(data_slots).ok()?,
        slot_ms: u16::try_from(slot_ms).ok()?,
        beacon_type: u8::try_from(beacon_type).ok()?,
    })
}

impl Plan {
    // Numbers that do not fit are out of rule, whatever the others are.
    pub fn new(
        network: u16,
        manager: u16,
        max_hops: u32,
        rows: u32,
        data_slots: u32,
        slot_ms: u32,
        beacon_type: u32,
    ) -> Result<Plan, Refusal>
        ensures { told_plan result ≡ plan_of network manager max_hops rows data_slots slot_ms beacon_type }
    {
        let Some(plan) = fitting(
            network,
            manager,
            max_hops,
            rows,
            data_slots,
            slot_ms,
            beacon_type,
        ) else {
            return Err(Refusal::Rule);
        };
        if plan.within_rule() {
            Ok(plan)
        } else {
            Err(Refusal::Rule)
        }
    }

    // Whether it is a plan that could have been made: a stored one may hold any numbers.
    pub fn within_rule(self) -> bool
        ensures { result ≡ plan_rule self }
    {
        (1 <= self.network)
            & is_address(self.manager)
            & ((1 <= self.max_hops) & (self.max_hops <= Plan::MOST_HOPS))
            & (Plan::FEWEST_ROWS <= self.rows)
            & (self.rows <= self.data_slots)
            & (self.active() <= Plan::MOST_ACTIVE)
            & ((Plan::SHORTEST_SLOT_MS <= self.slot_ms) & (self.slot_ms <= Plan::LONGEST_SLOT_MS))
            & ((self.beacon_type == Plan::BEACON) | (self.beacon_type == Plan::SHORT_BEACON))
            & ((self.beacon_type == Plan::SHORT_BEACON)
                | (self.superframe_ms() <= Plan::LONGEST_SUPERFRAME_MS))
    }
}
