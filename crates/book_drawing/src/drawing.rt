// The lines that slotview prints of a book: a head line, then a line per member.
ghost use Rattle.std.specs.Prelude.{◌≡◌, cond, eqb, ◌+◌, ◌≤◌, length};
ghost use Rattle.std.proofs.lemmas.List.Edits.{sets};
ghost use Rattle.slot_sets.specs.Sets.{slots_of};
ghost use Rattle.site_plan.specs.Schedules.{slot_number};
ghost use Rattle.book_members.specs.Members.{row_of, rows_of};
ghost use Rattle.book.specs.Books.{contents};
ghost use Rattle.book_drawing.specs.Texts.{Put};
ghost use Rattle.book_drawing.specs.Views.{letter, head_line, drawn, member_line, member_lines, book_text};

use crate::text::Text;
use book::book::Book;
use book_members::member::Member;
use book_members::rows::used;
use site_plan::plan::Plan;
use site_plan::schedules::{Seat, SlotKind, kind_at};

// The letter of a kind.
fn letter_of(kind: SlotKind) -> u8
    ensures { result ≡ letter (slot_number kind) }
{
    match kind {
        SlotKind::Tx => b'T',
        SlotKind::Rx => b'R',
        SlotKind::BeaconTx => b'B',
        SlotKind::BeaconRx => b'b',
        SlotKind::ControlTx => b'C',
        SlotKind::ControlRx => b'c',
        SlotKind::DiscoveryTx => b'D',
        SlotKind::DiscoveryRx => b'd',
        SlotKind::Sleep => b'.',
    }
}

// Where a row is drawn: the manager at hop 0, others at 1.
fn seat_of(row: u8, slots: u64) -> Seat
    ensures { result ≡ record { row = row; hop = cond (eqb row 0) 0 1; slots = slots } }
{
    Seat {
        row,
        hop: (row != 0) as u8,
        slots,
    }
}

impl Text<'_> {
    // A letter per slot.
    fn put_drawn(&mut self, plan: Plan, row: u8, slots: u64)
        requires { self.old.place ≤ 3500 }
        ensures { Put self.old (drawn plan row (slots_of slots)) self.new × (self.new.place ≤ self.old.place + 100) }
    {
        let seat = seat_of(row, slots);
        for slot in 0..plan.slots() as u8 {
            self.put_byte(letter_of(kind_at(plan, seat, slot)));
        }
    }

    fn put_member_line(&mut self, plan: Plan, row: u8, member: Member)
        requires { self.old.place ≤ 3000 }
        ensures { Put self.old (member_line plan row (row_of member)) self.new × (self.new.place ≤ self.old.place + 106) }
    {
        self.put_hex(member.unit);
        self.put_byte(b' ');
        self.put_drawn(plan, row, member.slots);
        self.put_byte(b'\n');
    }

    fn put_head_line(&mut self, plan: Plan)
        requires { self.old.place ≤ 3000 }
        ensures { Put self.old (head_line plan) self.new × (self.new.place ≤ self.old.place + 21) }
    {
        self.put(b"slots ");
        self.put_decimal(plan.slots() as u16);
        self.put(b" active ");
        self.put_decimal(plan.active());
        self.put(b"\n");
    }

    // A line for each row that is in use, and nothing for an empty one.
    fn put_rows(&mut self, plan: Plan, rows: &[Member])
        requires few { length rows.now ≤ 21 }
        requires room { self.old.place ≤ 21 }
        ensures { Put self.old (member_lines plan 0 (rows_of rows.now)) self.new }
    {
        for (row, member) in rows.iter().enumerate() {
            if member.unit != 0 {
                self.put_member_line(plan, row as u8, *member);
            }
        }
    }
}

// Writes the lines of a book, as far as there is room, and says how many bytes they have.
pub fn put_book(out: &mut [u8], book: Book) -> usize
    ensures { (out.new ≡ sets out.old 0 (book_text (contents book))) × (result ≡ length (book_text (contents book))) }
{
    let mut text = Text { out, place: 0 };
    text.put_head_line(book.plan);
    text.put_rows(book.plan, used(&book.rows, book.plan.rows));
    text.place
}
