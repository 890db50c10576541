// The check of a sheet: a plan of 10 bytes, links of 4 and rows of 10 each.
ghost use Rattle.std.specs.Prelude.{◌≡◌};
ghost use Rattle.c_sheet.specs.SheetCalls.{sheet_left, sheet_call};

// Checks a sheet against the plan of its site and the links between its units, and names who offends.
#[unsafe(no_mangle)]
pub extern "C" fn braidlark_check_sheet(
    plan: &[u8],
    links: &[u8],
    sheet: &[u8],
    named: &mut u8,
    lower: &mut u16,
    higher: &mut u16,
) -> u8
    ensures { sheet_left result named.new lower.new higher.new ≡ sheet_call plan.now links.now sheet.now named.old lower.old higher.old }
{
    c_sheet::sheet_calls::braidlark_check_sheet(plan, links, sheet, named, lower, higher)
}
