// A book: the plan of a site, the last accepted time, and a row for each member.
ghost use Rattle.std.specs.Prelude.{◌≡◌};
ghost use Rattle.book.specs.Books.{contents, within_rule, changed, no_book, fresh_of};

use book_members::member::Member;
use book_members::rows::{in_use, used};
use book_members::rules::{all_empty, rows_within_rule};
use octets::refusals::{Refusal, refuse_if};
use site_plan::plan::Plan;
use slot_sets::masks::below;

// The plan uses as many rows as it has members; the places behind them are zeros.
// Kept: an array with the plan's count of the rows in use, since fixed memory holds no list, and a book is stored with all its 21 places.
#[derive(Clone, Copy)]
pub struct Book {
    pub plan: Plan,
    pub time: u32,
    pub rows: [Member; 21],
}

// What stands where there is no book: zeros.
pub fn zeros() -> Book
    ensures { contents result ≡ no_book }
{
    Book {
        plan: Plan {
            network: 0,
            manager: 0,
            max_hops: 0,
            rows: 0,
            data_slots: 0,
            slot_ms: 0,
            beacon_type: 0,
        },
        time: 0,
        rows: [Member::EMPTY; 21],
    }
}

impl Book {
    // The book of a plan: the manager in row 0 with the lowest data slot. A plan out of rule is refused.
    #[tactic(auto, unfolding(crate::specs::Books::fresh_of))]
    pub fn fresh(plan: Plan, time: u32) -> Result<Book, Refusal>
        ensures { changed no_book result ≡ fresh_of plan time }
    {
        refuse_if(!plan.within_rule(), Refusal::Rule)?;
        let mut rows = [Member::EMPTY; 21];
        rows[0] = Member {
            unit: plan.manager,
            slots: below(1),
            time,
        };
        Ok(Book { plan, time, rows })
    }

    // Whether it is a book as document 01 says.
    pub fn within_rule(self) -> bool
        ensures { result ≡ within_rule (contents self) }
    {
        let plan = self.plan;
        plan.within_rule()
            & rows_within_rule(
                used(&self.rows, plan.rows),
                plan.manager,
                plan.data_slots,
                self.time,
            )
            & all_empty(&self.rows[in_use(plan.rows)..])
    }
}
