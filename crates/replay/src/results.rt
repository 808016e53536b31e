//! What came of the worlds in which slots and listeners were replayed.
use crate::history::History;
use crate::machine::Machine;
use crate::slot_replay::Phase;
use kernel_model::End;
use record_reader::Numbered;
use std::mem;
use tools::Wanted;
use world::World;
use world_text::Counts;

/// How many bytes were read at clients and at targets, and how many were written there.
pub(crate) type Moved = [u64; 4];

/// The last connection of a slot's world, and what it moved.
#[derive(Clone, Copy)]
struct Became {
    generation: u64,
    moved: Moved,
}

/// Whose act it was.
#[derive(Clone, Copy)]
pub(crate) enum Whose {
    Poller(usize),
    /// A slot and a generation, which is 0 if nothing was opened.
    Slot(usize, u64),
}

/// A record that fits nowhere.
#[derive(Clone, Copy)]
pub(crate) struct Flawed {
    pub whose: Whose,
    pub numbered: Numbered,
    /// Of a slot: the record before it, and what the slot was at then.
    pub before: Option<Numbered>,
    pub phase: Option<Phase>,
}

#[derive(Drop)]
pub(crate) struct Results {
    pub wanted: Wanted,
    /// How many connections there were, how many events of each kind, and what moved.
    pub connections: u64,
    pub counts: Counts,
    pub moved: Moved,
    /// Where the replay stopped.
    pub flawed: Option<Flawed>,
    /// The world where the replay stopped, or whose script is wanted.
    pub machine: Option<Machine>,
}

fn moved(client: &End, target: &End) -> Moved {
    [
        client.arrived().len().saturating_sub(client.unread().len()) as u64,
        target.arrived().len().saturating_sub(target.unread().len()) as u64,
        client.taken().len() as u64,
        target.taken().len() as u64,
    ]
}

impl Became {
    fn of(world: &World) -> Option<Became> {
        let Some(connection) = world.connection(0) else {
            return match world.past().last() {
                Some(past) => Some(Became {
                    generation: past.generation,
                    moved: moved(&past.ends.client, &past.ends.target),
                }),
                None => None,
            };
        };
        let (kernel, ends) = (world.kernel(), connection.ends);
        match (kernel.end(ends.client), kernel.end(ends.target)) {
            (Some(client), Some(target)) => Some(Became {
                generation: connection.pair.generation(),
                moved: moved(&client.socket, &target.socket),
            }),
            _ => None,
        }
    }
}

impl Results {
    pub(crate) fn new(wanted: Wanted) -> Results {
        Results {
            wanted,
            connections: 0,
            counts: Counts::NONE,
            moved: [0; 4],
            flawed: None,
            machine: None,
        }
    }

    /// The replay stops at this record.
    pub(crate) fn end(&mut self, flawed: Flawed, machine: Machine) {
        self.flawed = Some(flawed);
        self.keep(machine);
    }

    /// A world was replayed to its end, or as far as the recording goes.
    pub(crate) fn take(&mut self, slot: usize, machine: Machine) {
        if self.add(slot, &machine.history) {
            self.keep(machine);
        } else {
            drop(machine);
        }
    }

    fn keep(&mut self, machine: Machine) {
        drop(mem::replace(&mut self.machine, Some(machine)));
    }

    /// Counts what happened. Returns true if this script is wanted.
    fn add(&mut self, slot: usize, history: &History) -> bool {
        for event in history.events() {
            self.counts.count(event);
        }
        let Some(became) = Became::of(history.world()) else {
            return false;
        };
        self.connections = self.connections.saturating_add(1);
        for place in 0..4 {
            self.moved[place] = self.moved[place].saturating_add(became.moved[place]);
        }
        match self.wanted {
            Wanted::Script(of, generation) => of == slot && generation == became.generation,
            _ => false,
        }
    }
}
