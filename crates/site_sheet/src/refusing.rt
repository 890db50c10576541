// What is refused before any link is followed.
ghost use Rattle.std.specs.Prelude.{◌≡◌, take};
ghost use Rattle.octets.specs.Answers.{first};
ghost use Rattle.octets.specs.Lists.{every};
ghost use Rattle.octets.specs.Refusals.{status_of};
ghost use Rattle.site_sheet.specs.Sheets.{link_addressed, reasons};
ghost use Rattle.site_sheet.specs.SheetBytes.{sheet_in, links_in};

use crate::rows::{link_at, link_count};
use crate::sheet::Sheet;
use octets::addresses::is_address;
use octets::refusals::{Refusal, refuse_if};
use site_plan::plan::Plan;

fn links_addressed(links: &[u8]) -> bool
    ensures { result ≡ every link_addressed (links_in links.now) }
{
    let mut good = true;
    for place in (0..link_count(links)).rev() {
        let link = link_at(links, place);
        good = (is_address(link.one) & is_address(link.other)) & good;
    }
    good
}

// The reasons of which none follows a link: addresses, the plan, how many units there are, and whether each is listed once.
pub(crate) fn refuse_unfit(plan: Plan, links: &[u8], sheet: Sheet) -> Result<(), Refusal>
    ensures { status_of result ≡ first (take 5 (reasons plan (links_in links.now) (sheet_in sheet.entry.bytes.now))) }
{
    refuse_if(!sheet.addressed(), Refusal::Field)?;
    refuse_if(!links_addressed(links), Refusal::Field)?;
    refuse_if(!plan.within_rule(), Refusal::Rule)?;
    refuse_if(!sheet.fits(plan.rows), Refusal::Rule)?;
    refuse_if(!sheet.distinct(), Refusal::Rule)
}
