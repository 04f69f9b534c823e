use version_pair::Pair;

/// The state of the document.
#[derive(Clone, Copy, PartialEq, Eq)]
pub enum Document {
    /// It does not exist.
    Absent,
    /// It exists with the known pair.
    Known(usize),
    /// It exists with an invented pair. If a condition names the pair, its index among those that conditions
    /// name and no write is known to have.
    Invented(Option<usize>),
}

impl Document {
    /// Returns whether it exists.
    pub fn is_live(self) -> bool {
        self != Document::Absent
    }

    // A number for each.
    fn number(self) -> u64 {
        match self {
            Document::Absent => 0,
            Document::Invented(None) => 1,
            Document::Invented(Some(at)) => mark_of(at),
            Document::Known(at) => (at as u64).wrapping_add(2),
        }
    }
}

/// The state of the search.
#[derive(Clone, Copy)]
pub struct SearchState {
    pub document: Document,
    /// The number of known pairs that are passed.
    pub passed: usize,
    /// The number of writes that were inserted since.
    pub inserted: u64,
    /// Whether one of them has a pair that is chosen at the end.
    pub has_unpaired: bool,
    /// The number of writes to be inserted before the next known pair.
    pub budget: u64,
    /// The greatest pair that is taken: the known one that was passed last, or that of a write inserted since
    /// between two pairs of one term.
    pub last: Option<Pair>,
    /// How many of the answered records, in response order, are surely placed.
    pub replies: usize,
    /// How many of the conflicts on pairs, by call, were met.
    pub conflicts_met: usize,
    /// The latest call of the writes that are placed.
    pub latest: usize,
    /// A number derived from the records that are placed, whatever their order.
    pub mark: u64,
}

// The budgets: how many writes may be inserted before a known pair. Each budget is tried with more insertions
// than the one before it allows. Few are tried first, since each insertion takes a number that another
// document may need.
const BUDGETS: [u64; 9] = [0, 1, 2, 3, 4, 6, 9, 14, u64::MAX];

// The least number of insertions that are tried under this budget.
fn least_under(budget: u64) -> u64 {
    let mut least = 0;
    for lesser in BUDGETS {
        if lesser < budget {
            least = lesser + 1;
        }
    }
    least
}

// The budget that is tried after this one.
fn budget_after(budget: u64) -> Option<u64> {
    for greater in BUDGETS {
        if greater > budget {
            return Some(greater);
        }
    }
    None
}

/// Returns a number derived from another one, so that results seldom coincide.
pub fn mix(number: u64) -> u64 {
    let a = number.wrapping_add(0x9e37_79b9_7f4a_7c15);
    let b = (a ^ (a >> 30)).wrapping_mul(0xbf58_476d_1ce4_e5b9);
    let c = (b ^ (b >> 27)).wrapping_mul(0x94d0_49bb_1331_11eb);
    c ^ (c >> 31)
}

/// Returns a number derived from an index, as that of a record.
pub fn mark_of(index: usize) -> u64 {
    mix(index as u64)
}

impl SearchState {
    /// Returns the state at the start.
    pub fn start() -> SearchState {
        SearchState {
            document: Document::Absent,
            passed: 0,
            inserted: 0,
            has_unpaired: false,
            budget: 0,
            last: None,
            replies: 0,
            conflicts_met: 0,
            latest: 0,
            mark: 0,
        }
    }

    /// Returns whether as many writes were inserted as required.
    pub fn has_inserted(self) -> bool {
        self.inserted >= least_under(self.budget)
    }

    /// Returns how many more writes may be inserted before the next known pair: not below zero.
    pub fn budget_left(self) -> u64 {
        self.budget.saturating_sub(self.inserted)
    }

    /// Returns how many more writes must be inserted before the next known pair after one more is inserted:
    /// not below zero.
    pub fn behind(self) -> u64 {
        least_under(self.budget)
            .saturating_sub(self.inserted)
            .saturating_sub(1)
    }

    /// Returns the same state with more writes to be inserted, if there is room for that many; `None` if it
    /// is not at the beginning of its stretch, or all budgets were tried.
    pub fn with_more(self, room: u64) -> Option<SearchState> {
        if self.inserted != 0 || self.budget >= room {
            return None;
        }
        let mut more = self;
        more.budget = budget_after(self.budget)?;
        Some(more)
    }

    /// Returns a number derived from all that determines what can come after.
    pub fn key(self) -> u64 {
        let place = mix(mark_of(self.passed) ^ self.document.number());
        let budget = if self.inserted == 0 { 0 } else { self.budget };
        let last = self.last.map_or(0, |pair| pair.seq() + 1);
        let unpaired = if self.has_unpaired { 1 } else { 0 };
        mix(mix(mix(mix(place ^ self.inserted) ^ budget) ^ last) ^ unpaired) ^ self.mark
    }
}
