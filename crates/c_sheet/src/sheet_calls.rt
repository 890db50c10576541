// The check of a sheet: a plan of 10 bytes, links of 4 and rows of 10 each.
ghost use Rattle.std.specs.Prelude.{◌≡◌, take};
ghost use Rattle.octets.specs.Answers.{accepted, first, unless};
ghost use Rattle.octets.specs.Refusals.{status_of};
ghost use Rattle.site_sheet.specs.Verdicts.{verdict_values, given, told_checked};
ghost use Rattle.c_sheet.specs.SheetCalls.{sheet_left, finding, checked_in, sheet_reasons, sheet_call};

use octets::refusals::{Refusal, refuse_if};
use site_plan::plan_bytes::{PLAN_SIZE, plan_of};
use site_sheet::checking::{Verdict, check_sheet};
use site_sheet::rows::{whole_links, whole_rows};

// Bytes of another length than a plan's, or of no whole number of links or of rows.
fn refuse_lengths(plan: &[u8], links: &[u8], sheet: &[u8]) -> Result<(), Refusal>
    ensures { status_of result ≡ first (take 3 (sheet_reasons plan.now links.now sheet.now)) }
{
    refuse_if(plan.len() != PLAN_SIZE, Refusal::Rule)?;
    refuse_if(!whole_links(links), Refusal::Rule)?;
    refuse_if(!whole_rows(sheet), Refusal::Rule)
}

// What is said of a sheet in the caller's bytes.
fn checked(plan: &[u8], links: &[u8], sheet: &[u8]) -> Result<Verdict, Refusal>
    ensures { told_checked result ≡ unless (first (take 3 (sheet_reasons plan.now links.now sheet.now))) (checked_in plan.now links.now sheet.now) }
{
    refuse_lengths(plan, links, sheet)?;
    check_sheet(plan_of(plan, 0), links, sheet)
}

// A verdict as numbers: how many units are named, and these, 0 where none is.
fn numbers(verdict: Verdict) -> (u8, u16, u16)
    ensures { finding (accepted (verdict_values (given verdict))) ≡ record { refused = 0; named = result.0; lower = result.1; higher = result.2 } }
{
    match verdict {
        Verdict::Fine => (0, 0, 0),
        Verdict::Unit(unit) => (1, unit, 0),
        Verdict::Pair(pair) => (2, pair.lower, pair.higher),
    }
}

// Checks a sheet against the plan of its site and the links between its units, and names who offends.
pub fn braidlark_check_sheet(
    plan: &[u8],
    links: &[u8],
    sheet: &[u8],
    named: &mut u8,
    lower: &mut u16,
    higher: &mut u16,
) -> u8
    ensures { sheet_left result named.new lower.new higher.new ≡ sheet_call plan.now links.now sheet.now named.old lower.old higher.old }
{
    match checked(plan, links, sheet) {
        Ok(verdict) => {
            (*named, *lower, *higher) = numbers(verdict);
            0
        }
        Err(refusal) => refusal.number(),
    }
}
