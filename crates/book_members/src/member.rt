// One row of a member book.

// The largest field first, so that rows have no gaps. `slots` has a bit for each data slot that the unit holds; `time` is that of its last accepted call.
#[derive(Clone, Copy, PartialEq, Eq)]
pub struct Member {
    pub slots: u64,
    pub time: u32,
    pub unit: u16,
}

impl Member {
    // A row that is not in use.
    pub const EMPTY: Member = Member {
        slots: 0,
        time: 0,
        unit: 0,
    };
}
