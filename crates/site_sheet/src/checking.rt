// The check of a sheet.
ghost use Rattle.std.specs.Prelude.{◌≡◌};
ghost use Rattle.site_sheet.specs.Seen.{known_in, clashing, known_unit};
ghost use Rattle.site_sheet.specs.SheetBytes.{sheet_in, links_in};
ghost use Rattle.site_sheet.specs.Verdicts.{bad_units, pairs, soonest, judged, given, check_sheet, told_checked};

use crate::judging::Linked;
use crate::neighbours::neighbours_of;
use crate::refusing::refuse_unfit;
use crate::sheet::Sheet;
use octets::refusals::Refusal;
use site_plan::plan::Plan;

// Two units, the lower first. Of two pairs the one with the lower such unit comes first, then the one with the lower other unit.
#[derive(Clone, Copy, Debug, PartialEq, Eq, PartialOrd, Ord)]
pub struct Pair {
    pub lower: u16,
    pub higher: u16,
}

// What is said of a sheet: that it is fine, or who offends.
#[derive(Clone, Copy, Debug, PartialEq, Eq)]
pub enum Verdict {
    Fine,
    Unit(u16),
    Pair(Pair),
}

// The verdict on a sheet that is not refused.
fn judge(data_slots: u8, linked: &Linked) -> Verdict
    ensures { given result ≡ judged (soonest (bad_units data_slots (sheet_in linked.now.sheet.bytes.now))) (soonest (pairs clashing known_unit (known_in linked.now.sheet.bytes.now linked.now.masks))) }
{
    if let Some(unit) = linked.sheet.first_unit(data_slots) {
        return Verdict::Unit(unit);
    }
    if let Some(pair) = linked.first_pair() {
        return Verdict::Pair(pair);
    }
    Verdict::Fine
}

// Checks a sheet against the plan of its site and the links between its units. Bytes behind the last whole row or link say nothing.
pub fn check_sheet(plan: Plan, links: &[u8], sheet: &[u8]) -> Result<Verdict, Refusal>
    ensures { told_checked result ≡ check_sheet plan (links_in links.now) (sheet_in sheet.now) }
{
    let sheet = Sheet::new(sheet);
    refuse_unfit(plan, links, sheet)?;
    let Some(masks) = neighbours_of(links, sheet) else {
        return Err(Refusal::Rule);
    };
    let linked = Linked { sheet, masks };
    Ok(judge(plan.data_slots, &linked))
}
