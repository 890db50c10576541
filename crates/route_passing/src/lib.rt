// What a forwarder needs of a beacon, apart from any layout; why a table does not pass it on, and what it records when it does.
#![tactic(auto)]

ghost use Rattle.std.specs.Prelude.{◌≡◌, Ok};
ghost use Rattle.octets.specs.Answers.{first};
ghost use Rattle.octets.specs.Refusals.{status_of};
ghost use Rattle.route_table.specs.Outcomes.{changed, found};
ghost use Rattle.route_passing.specs.Numbers.{numbered};
ghost use Rattle.route_passing.specs.Passes.{again, to_forward, passing_reasons, passed_head, pass_of};

use moments::in_order;
use octets::choices::either;
use octets::refusals::{Refusal, refuse_if, status};
use route_table::standing::standing_places;
use route_table::table::{Head, Route, Table};

// `longest` is the longest delay that its kind has room for.
#[derive(Clone, Copy)]
pub struct Passing {
    pub source: u16,
    pub network: u16,
    pub original_source: u16,
    pub hop: u8,
    pub max_hops: u8,
    pub delay: u32,
    pub longest: u32,
    pub sequence: u16,
}

// Whether it is the last one forwarded.
fn again(head: Head, passing: Passing) -> bool
    ensures { result ≡ again head passing }
{
    head.forwarded & (head.origin == passing.original_source) & (head.sequence == passing.sequence)
}

// Whether it is this unit's to forward, which has this route to its original source.
fn to_forward(head: Head, route: Route, passing: Passing) -> bool
    ensures { result ≡ to_forward head (found (Ok route)) passing }
{
    let next = u16::from(route.hops) == u16::from(passing.hop) + 1;
    next & (passing.hop < passing.max_hops) & !again(head, passing)
}

// Why a beacon that was read is not passed on by a table within rule with this head, whatever the room. `route` is what the table answers to a lookup of the
// beacon's original source.
pub fn why_not_passed(
    head: Head,
    route: Result<Route, Refusal>,
    network: u16,
    passing: Passing,
    delay: u32,
    time: u32,
) -> Result<(), Refusal>
    ensures { status_of result ≡ first (passing_reasons head (found route) network passing delay time) }
{
    refuse_if(passing.source == head.own, Refusal::Own)?;
    refuse_if(passing.network != network, Refusal::Network)?;
    refuse_if(!in_order(head.time, time), Refusal::Earlier)?;
    let Ok(route) = route else {
        return Err(Refusal::NoRoute);
    };
    refuse_if(!to_forward(head, route, passing), Refusal::NotOurs)?;
    let sum = u64::from(passing.delay) + u64::from(delay);
    refuse_if(u64::from(passing.longest) < sum, Refusal::Field)
}

// The head of a table when a beacon was passed on: its pair and the time.
pub fn passed_head(head: Head, passing: Passing, time: u32) -> Head
    ensures { result ≡ passed_head head passing time }
{
    Head {
        time,
        forwarded: true,
        origin: passing.original_source,
        sequence: passing.sequence,
        ..head
    }
}

// The table when a beacon was passed on. `before` is what refuses the beacon before the table is asked, `behind` what refuses it when all else would not.
#[tactic(auto, unfolding(crate::specs::Passes::pass_of))]
pub fn pass(
    table: Table,
    before: Result<(), Refusal>,
    network: u16,
    passing: Passing,
    delay: u32,
    time: u32,
    behind: Result<(), Refusal>,
) -> Result<Table, Refusal>
    ensures { changed table result ≡ pass_of table (status_of before) network passing delay time (status_of behind) }
{
    refuse_if(!table.within_rule(), Refusal::Rule)?;
    before?;
    let head = table.head();
    let route = table.route_to(passing.original_source, time);
    why_not_passed(head, route, network, passing, delay, time)?;
    behind?;
    let rows = standing_places(table.rows, time);
    Ok(passed_head(head, passing, time).placed(rows))
}

// What passing on by numbers gives: 0, or the number that refuses it, and the table that then stands.
#[derive(Clone, Copy)]
pub struct Numbered {
    pub refused: u8,
    pub table: Table,
}

// The same for a caller that refuses by numbers of its own: `before` and `behind` are any bytes, 0 where nothing refuses.
pub fn pass_numbered(
    table: Table,
    before: u8,
    network: u16,
    passing: Passing,
    delay: u32,
    time: u32,
    behind: u8,
) -> Numbered
    ensures { result ≡ numbered (pass_of table before network passing delay time behind) }
{
    if !table.within_rule() {
        return Numbered {
            refused: Refusal::Rule.number(),
            table,
        };
    }
    let head = table.head();
    let route = table.route_to(passing.original_source, time);
    let unpassed = status(why_not_passed(head, route, network, passing, delay, time));
    let refused = either(before != 0, before, either(unpassed != 0, unpassed, behind));
    if refused != 0 {
        return Numbered { refused, table };
    }
    let rows = standing_places(table.rows, time);
    Numbered {
        refused: 0,
        table: passed_head(head, passing, time).placed(rows),
    }
}
