ghost use Rattle.std.specs.Prelude.{◌≡◌, ◌<◌, ◌≤◌, ◌++◌, ◌∷◌, [], ℕ, List, All, IfOk};
ghost use Rattle.std.specs.List.Sorted.{IsPermutation};
ghost use Rattle.events.specs.Refusal.{most_events};
ghost use Rattle.recorder.specs.Clock.{most_pens, nothing_drawn, numbers_below, numbers_in, seat_with, split_once_more, with_joined};
ghost use Rattle.recorder.specs.declared.clock_view.ClockView.TheVariants.{Maker, Drew};

use crate::clock_view::ClockView;
use atomic_table::{Join, Play, Seat, Split, Table, TableRule};
use std::alloc::Global;
use std::marker::Model;
use version_pair::NoMemory;

/// The rule of the clock word.
pub struct ClockRule;

impl TableRule<(), ClockView, ()> for ClockRule {
    ghost use Rattle.std.specs.Prelude.{[]};
    ghost use Rattle.recorder.specs.Clock.{IsClock};
    ghost use Rattle.recorder.specs.declared.clock_view.ClockView.TheVariants.{Maker};

    ghost holds = { λ _. IsClock };

    ghost first = { λ _. Maker 0 0 [] };
}

// A pen draws a number.
struct Draw;

impl Play<(), ClockView> for Draw {
    ghost use Rattle.recorder.specs.Clock.{Draws};

    ghost then = { Draws };
}

// The maker splits a pen's seat off.
struct SplitOff;

impl Split<ClockView> for SplitOff {
    ghost use Rattle.recorder.specs.Clock.{nothing_drawn, split_once_more};

    ghost left = { split_once_more };

    ghost right = { λ _. nothing_drawn };
}

// The maker joins a pen's seat.
struct Gather;

impl Join<ClockView> for Gather {
    ghost use Rattle.recorder.specs.Clock.{with_joined};
    ghost use Rattle.recorder.specs.declared.clock_view.ClockView.TheVariants.{Spent};

    ghost both = { with_joined };

    ghost spent = { Spent };
}

/// A seat of the clock word: the maker's, or that of a pen. It takes no bytes.
pub type ClockSeat = Seat<(), ClockView>;

/// The clock word: the next number to draw. Contracts see which word it is.
#[derive(Drop)]
pub struct Clock {
    table: Table<(), ClockView, (), ClockRule, Global>,
}

impl Model for Clock {
    ghost use Rattle.atomic_table.specs.Seated.{TableId};

    ghost Value = { TableId };

    ghost use Rattle.std.specs.Prelude.{◌≡◌};

    ghost view = { λ c. c.table.shared.table_id };

    ghost invariant = { λ c. (c.table.shared.table_id.words ≡ 1) × (c.table.shared.table_id.slots ≡ 0) };
}

impl Clock {
    /// Returns a clock word at 0, and the maker's seat.
    pub fn start(alloc: Global) -> Result<(Clock, ClockSeat), NoMemory>
        ensures clock { IfOk result (λ made. made.1.table_id ≡ made.0) }
        ensures view { IfOk result (λ made. made.1.me ≡ seat_with (Maker 0 0 [])) }
    {
        let (table, maker) = Table::of_words(alloc, &[0], &())?;
        Ok((Clock { table }, maker))
    }

    /// Splits a pen's seat off the maker's, which must have split off fewer than eight and joined none.
    pub fn split_off(&self, maker: &mut ClockSeat) -> ClockSeat
        requires clock { maker.old.table_id ≡ self.now }
        requires maker { (k : ℕ) × (k < most_pens) × (maker.old.me ≡ seat_with (Maker k 0 [])) }
        ensures clock { (maker.new.table_id ≡ self.now) × (result.table_id ≡ self.now) }
        ensures maker { maker.new.me ≡ seat_with (split_once_more maker.old.me.0) }
        ensures pen { result.me ≡ seat_with nothing_drawn }
    {
        self.table.shared.split_seat::<SplitOff>(maker)
    }

    /// Draws the next number. It is above all numbers that the seat drew before, which must all be below
    /// 1,048,576.
    pub fn draw(&self, pen: &mut ClockSeat) -> u64
        requires clock { pen.old.table_id ≡ self.now }
        requires pen { (drawn : List ℕ) × All (λ n. n < most_events) drawn × (pen.old.me ≡ seat_with (Drew drawn)) }
        ensures clock { pen.new.table_id ≡ self.now }
        ensures pen { pen.new.me ≡ seat_with (Drew (numbers_in pen.old.me.0 ++ result ∷ [])) }
        ensures above { All (λ n. n < result) (numbers_in pen.old.me.0) }
    {
        self.table.shared.fetch_add::<Draw>(pen, 0, 1)
    }

    /// Joins a pen's seat to the maker's.
    pub fn join(&self, maker: &mut ClockSeat, pen: ClockSeat)
        requires clock { (maker.old.table_id ≡ self.now) × (pen.table_id ≡ self.now) }
        requires maker { (k j : ℕ) × (g : List ℕ) × (maker.old.me ≡ seat_with (Maker k j g)) }
        requires pen { (drawn : List ℕ) × (pen.me ≡ seat_with (Drew drawn)) }
        ensures clock { maker.new.table_id ≡ self.now }
        ensures maker { maker.new.me ≡ seat_with (with_joined maker.old.me.0 pen.me.0) }
    {
        self.table.shared.join_seat::<Gather>(maker, pen);
    }

    /// Returns how many numbers were drawn. Each pen's seat must have been joined. The maker's seat then has
    /// each number below the result exactly once.
    pub fn stop(self, maker: ClockSeat) -> u64
        requires clock { maker.table_id ≡ self }
        requires maker { (k j : ℕ) × (g : List ℕ) × (k ≤ j) × (maker.me ≡ seat_with (Maker k j g)) }
        ensures { IsPermutation (numbers_in maker.me.0) (numbers_below result) }
    {
        let Clock { table } = self;
        let closed = table.close_with(maker);
        let word = closed.word(0);
        closed.free();
        word
    }
}
