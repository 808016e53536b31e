// Facts about single values that no row and no clause shows.
use crate::all_well;
use relay_core::Verdict;
use statistics::{AtomicGauge, Count, Counts, Event, Memory, Statistics};
use std::alloc::{AllocError, Global};
use std::cell::Cell;
use std::test::Fail;
use token::{Name, Side, Token, TokenFault, next_gen, unpack};

/// Two connections: the first is done, the second is open. The first sent 2^32 bytes, more than 32 bits can count.
static EVENTS: [Event; 5] = [
    Event::Opened,
    Event::Moved { up: 3, down: 5 },
    Event::Ended {
        verdict: Verdict::Done,
        up: 4_294_967_296,
        down: 7,
    },
    Event::Opened,
    Event::Moved { up: 1, down: 2 },
];

/// Whether the sums over two slots are twice these events' counts, and both slots were taken at one of two looks, and
/// clients waited before the other.
fn are_summed(alloc: Global) -> Result<bool, AllocError> {
    let statistics = Statistics::new(alloc, 2)?;
    for slot in 0..2 {
        for event in EVENTS {
            statistics.count(&mut (), slot, event);
        }
        if slot == 0 {
            statistics.starve(&mut ());
        }
        statistics.lose(&mut ());
        statistics.look(&mut ());
    }
    let sums = statistics.totals(&mut ());
    Ok(
        (sums.slots, sums.live, sums.sums.at(Count::Done)) == (2, 2, 2)
            && (sums.sums.at(Count::Up), sums.sums.at(Count::Down)) == (8_589_934_594, 18)
            && (sums.levels.most, sums.levels.full_seconds) == (2, 1)
            && (sums.levels.waiting_seconds, sums.levels.lost) == (1, 2)
            && are_settled(alloc)?,
    )
}

/// A place whose first three reads differ.
#[derive(Drop)]
struct Changing(Cell<u64>);

impl Memory for Changing {
    ghost did = { λ _ _. Unit {0} };

    fn load(&self) -> Counts {
        let times = self.0.get().saturating_add(1).min(3);
        self.0.set(times);
        let mut counts = Counts::NONE;
        counts.numbers[Count::Done.place()] = times;
        counts
    }

    fn store(&self, _counts: Counts) {}
}

/// Whether the sums are those of two reads that agree.
fn are_settled(alloc: Global) -> Result<bool, AllocError> {
    let mut places = Vec::new(alloc);
    places.push(Changing(Cell::new(0)))?;
    let statistics = Statistics::over(places, AtomicGauge::zero());
    Ok(statistics.totals(&mut ()).sums.at(Count::Done) == 3)
}

// refuses counts_of_32_bits: a count goes round at 2^32
// refuses last_slot_is_not_summed: the last slot's counts are not in the sums
// refuses two_slots_in_one_place: two slots are counted in one place
// refuses most_falls_with_what_is_open: the most that were open falls when one ends
// refuses second_without_all_slots: a second is added though a slot is free
// refuses second_without_waiting: a second is added though accept(2) has lacked nothing since the last look
// refuses changing_place_is_read_once: a place that changes meanwhile is not read again
#[test]
fn statistics_of_each_slot(rt: HostRuntime) -> Result<(), Fail> {
    all_well(are_summed(rt.alloc()))
}

const LAST: u64 = 140_737_488_355_327;

/// Each row: an end's slot, side and generation, and the number of its token.
static ENDS: [(usize, Side, u64, u64); 3] = [
    (32_767, Side::Target, LAST, 9_223_372_036_854_775_807),
    (0, Side::Client, 1, 65_536),
    (3, Side::Target, 2, 131_079),
];

/// Each row: a slot and a generation that no end has, and why they are refused.
static FAULTS: [(usize, u64, TokenFault); 3] = [
    (32_768, 1, TokenFault::SlotRange),
    (0, 0, TokenFault::GenRange),
    (32_768, 0, TokenFault::SlotRange),
];

/// Whether an end has this number, and the number is of that end.
fn is_number(slot: usize, side: Side, generation: u64, number: u64) -> bool {
    match Token::pack(slot, side, generation) {
        Ok(token) => token.value() == number && unpack(number) == Some(Name::End(token)),
        Err(_) => false,
    }
}

fn are_numbers() -> bool {
    let mut all = true;
    for (slot, side, generation, number) in ENDS {
        all = all && is_number(slot, side, generation, number);
    }
    all
}

fn are_refused() -> bool {
    let mut all = next_gen(LAST).is_none();
    for (slot, generation, fault) in FAULTS {
        all = all && Token::pack(slot, Side::Client, generation) == Err(fault);
    }
    all && unpack(2).is_none() && unpack(9_223_372_036_854_775_808).is_none()
}

// refuses next_gen_goes_round: the generation after the last one is the first
// refuses pack_looks_at_generation_first: a bad generation is reported before a bad slot
// refuses unpack_ignores_side: each end that a number names is the client's
// refuses value_with_narrow_slot: the numbers of two slots' ends overlap
#[test]
fn numbers(_rt: HostRuntime) -> Result<(), Fail> {
    all_well(Ok(are_numbers() && are_refused()))
}
