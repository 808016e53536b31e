//! How the slots are dealt to the pollers.
ghost use Rattle.std.specs.Prelude.{◌≡◌, ◌+◌, ◌*◌, ◌<◌, ◌≤◌, ◌↔◌, IsTrue};
ghost use Rattle.sizes.specs.Splits.{part_of, parts_of, IsIn};

/// A poller's `slots` slots, from `first` on. The poller alone opens connections there and delivers their reports.
#[derive(Clone, Copy)]
pub struct Part {
    pub first: usize,
    pub slots: usize,
}

impl Part {
    /// Whether the slot is in this part.
    pub fn has(&self, slot: usize) -> bool
        ensures { IsTrue result ↔ IsIn self.now slot }
    {
        slot >= self.first && slot - self.first < self.slots
    }
}

/// The slots of a server, dealt to its pollers in parts of one size, one after the other. The last part may be smaller.
#[derive(Clone, Copy)]
pub struct Split {
    slots: usize,
    size: usize,
    pub ghost most: { slots ≤ 4096 },
    pub ghost some: { (1 ≤ slots) × (1 ≤ size) },
    pub ghost fits: { size ≤ slots },
    pub ghost few: { parts_of slots size ≤ 16 },
}

impl Split {
    /// Deals a part to each poller. There may be fewer parts than `pollers` if the square of `pollers` exceeds `slots`.
    #[tactic(auto, using(crate::proofs::Slots::parts_of_size, crate::proofs::Slots::parts_le))]
    pub fn new(slots: usize, pollers: usize) -> Split
        requires slots { (1 ≤ slots) × (slots ≤ 4096) }
        requires pollers { (1 ≤ pollers) × (pollers ≤ 16) }
        ensures slots { result.slots ≡ slots }
        ensures pollers { pollers * pollers ≤ slots → parts_of result.slots result.size ≡ pollers }
        ensures most { parts_of result.slots result.size ≤ pollers }
    {
        Split {
            slots,
            size: (slots - 1) / pollers + 1,
        }
    }

    /// How many slots there are.
    pub fn slots(&self) -> usize
        ensures { result ≡ self.now.slots }
    {
        self.slots
    }

    /// How many parts there are.
    pub fn pollers(&self) -> usize
        ensures parts { result ≡ parts_of self.now.slots self.now.size }
        ensures few { result ≤ 16 }
    {
        (self.slots - 1) / self.size + 1
    }

    /// The slots of the poller with this number.
    pub fn part(&self, poller: usize) -> Part
        requires { poller < parts_of self.now.slots self.now.size }
        ensures part { result ≡ part_of self.now.slots self.now.size poller }
        ensures some { 1 ≤ result.slots }
        ensures inside { result.first + result.slots ≤ self.now.slots }
    {
        let first = poller * self.size;
        Part {
            first,
            slots: self.size.min(self.slots - first),
        }
    }

    /// The number of the poller that has this slot.
    pub fn poller_of(&self, slot: usize) -> usize
        ensures { slot < self.now.slots → IsIn (part_of self.now.slots self.now.size result) slot }
    {
        slot / self.size
    }
}
