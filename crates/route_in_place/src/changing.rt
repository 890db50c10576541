// A table changed where its bytes lie: a unit forgotten, a beacon passed on. Both drop the rows that are gone.
ghost use Rattle.std.specs.Prelude.{◌≡◌, true, ◌≤◌, length};
ghost use Rattle.std.proofs.lemmas.List.Edits.{sets};
ghost use Rattle.octets.specs.Refusals.{status_of};
ghost use Rattle.route_table.specs.Tables.{rows_of, table_of, forget_of};
ghost use Rattle.route_passing.specs.Passes.{pass_of};
ghost use Rattle.route_bytes.specs.StoredTables.{table_left, changed_by};
ghost use Rattle.route_bytes.specs.TableBytes.{rows_bytes, table_in, table_bytes, holds_table};
ghost use Rattle.route_in_place.specs.Changes.{kept};

use crate::judging::{holds_table, judged_for};
use octets::choices::either;
use octets::refusals::{Refusal, status};
use octets::zeros::put_zeros;
use route_bytes::tables::{head_of, put_head, put_row, row_in};
use route_passing::{Passing, passed_head, why_not_passed};
use route_table::table::{Head, found_by, why_unforgotten};

// The rows that stand at a time move to the front, those to a unit or through it withdrawn; answers how many they are. A row that stays where it is as it
// is, as most do, is not written.
fn keep_rows(table: &mut [u8], unit: u16, time: u32) -> usize
    requires { holds_table table.old ≡ true }
    ensures { (table.new ≡ sets table.old 11 (rows_bytes (kept unit time (rows_of (table_in table.old))))) × (result ≡ length (kept unit time (rows_of (table_in table.old)))) × (result ≤ 48) }
{
    let mut count = 0;
    for place in 0..48 {
        let from = 11 + 11 * place;
        let row = row_in(&table[from..from + 11]);
        if row.destination == 0 {
            return count;
        }
        if !row.stands(time) {
            continue;
        }
        let start = 11 + 11 * count;
        count += 1;
        if (start == from) & !row.lost(unit, time) {
            continue;
        }
        put_row(&mut table[start..start + 11], 0, row.forgotten(unit, time));
    }
    count
}

// The table with this head, without the rows that are gone at its time; those to a unit or through it are withdrawn.
fn renew(table: &mut [u8], head: Head, unit: u16)
    requires { holds_table table.old ≡ true }
    ensures { table.new ≡ table_bytes (table_of head (kept unit head.time (rows_of (table_in table.old)))) }
{
    let count = keep_rows(table, unit, head.time);
    put_zeros(table, 11 + 11 * count, 528 - 11 * count);
    put_head(table, head);
}

// Withdraws all usable rows to a unit or through it.
pub fn forget(table: &mut [u8], unit: u16, time: u32) -> Result<(), Refusal>
    ensures { table_left (status_of result) table.new ≡ changed_by table.old (λ t. forget_of t unit time) }
{
    if !holds_table(&table[..]) {
        return Err(Refusal::Rule);
    }
    let head = head_of(&table[..]);
    why_unforgotten(head.own, head.time, unit, time)?;
    renew(table, Head { time, ..head }, unit);
    Ok(())
}

// Records that a beacon was passed on, unless something refuses it: `before` the table is asked, or `behind` all else.
pub fn pass(
    table: &mut [u8],
    before: Result<(), Refusal>,
    network: u16,
    passing: Passing,
    delay: u32,
    time: u32,
    behind: Result<(), Refusal>,
) -> Result<(), Refusal>
    ensures { table_left (status_of result) table.new ≡ changed_by table.old (λ t. pass_of t (status_of before) network passing delay time (status_of behind)) }
{
    let Some(row) = judged_for(&table[..], passing.original_source) else {
        return Err(Refusal::Rule);
    };
    before?;
    let head = head_of(&table[..]);
    let route = found_by(head.time, row, passing.original_source, time);
    why_not_passed(head, route, network, passing, delay, time)?;
    behind?;
    // Kept: the unit 0 for none that is forgotten, and no Option: no row leads to 0 or through it, so that no row is lost.
    renew(table, passed_head(head, passing, time), 0);
    Ok(())
}

// The same for a caller that refuses by numbers of its own: `before` and `behind` are any bytes, 0 where nothing refuses. Answers the number that does.
pub fn pass_numbered(
    table: &mut [u8],
    before: u8,
    network: u16,
    passing: Passing,
    delay: u32,
    time: u32,
    behind: u8,
) -> u8
    ensures { table_left result table.new ≡ changed_by table.old (λ t. pass_of t before network passing delay time behind) }
{
    let Some(row) = judged_for(&table[..], passing.original_source) else {
        return Refusal::Rule.number();
    };
    let head = head_of(&table[..]);
    let route = found_by(head.time, row, passing.original_source, time);
    let unpassed = status(why_not_passed(head, route, network, passing, delay, time));
    let refused = either(before != 0, before, either(unpassed != 0, unpassed, behind));
    if refused != 0 {
        return refused;
    }
    let passed = passed_head(head, passing, time);
    renew(table, passed, 0);
    0
}
