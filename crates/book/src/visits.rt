// What needs no frame: a member that was heard, and one that leaves.
ghost use Rattle.std.specs.Prelude.{◌≡◌, take};
ghost use Rattle.octets.specs.Answers.{first};
ghost use Rattle.octets.specs.Refusals.{status_of};
ghost use Rattle.book.specs.Books.{contents, changed, heard_reasons, heard_of, leave_of};

use crate::book::Book;
use book_members::member::Member;
use book_members::rows::{current, place_for, used};
use moments::in_order;
use octets::addresses::is_address;
use octets::refusals::{Refusal, refuse_if};

impl Book {
    // The reasons that every call on a member begins with, in document 01's order: a book out of rule, no address, and a time that is past.
    pub(crate) fn refuse_visit(&self, unit: u16, time: u32) -> Result<(), Refusal>
        ensures { status_of result ≡ first (take 3 (heard_reasons (contents self.now) unit time)) }
    {
        refuse_if(!self.within_rule(), Refusal::Rule)?;
        refuse_if(!is_address(unit), Refusal::Field)?;
        refuse_if(!in_order(self.time, time), Refusal::Earlier)
    }

    // Renews the time of a live member.
    #[tactic(auto, unfolding(crate::specs::Books::heard_of))]
    pub fn heard(self, unit: u16, time: u32) -> Result<Book, Refusal>
        ensures { changed (contents self) result ≡ heard_of (contents self) unit time }
    {
        self.refuse_visit(unit, time)?;
        let mut rows = current(self.rows, time);
        let at = place_for(used(&rows, self.plan.rows), unit).ok_or(Refusal::NoMember)?;
        rows[at].time = time;
        Ok(Book { time, rows, ..self })
    }

    // Frees the row and the slots of a live member; the manager stays.
    #[tactic(auto, unfolding(crate::specs::Books::leave_of))]
    pub fn leave(self, unit: u16, time: u32) -> Result<Book, Refusal>
        ensures { changed (contents self) result ≡ leave_of (contents self) unit time }
    {
        self.refuse_visit(unit, time)?;
        refuse_if(unit == self.plan.manager, Refusal::NoMember)?;
        let mut rows = current(self.rows, time);
        let at = place_for(used(&rows, self.plan.rows), unit).ok_or(Refusal::NoMember)?;
        rows[at] = Member::EMPTY;
        Ok(Book { time, rows, ..self })
    }
}
