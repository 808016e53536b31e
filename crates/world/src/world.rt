// The machine's state, how it starts, and its readers.
#![tactic(auto, using(std::proofs::lemmas::Option::gets, std::proofs::lemmas::Grind::common_steps))]

ghost use Rattle.std.specs.Prelude.{◌≡◌, IfOk, replicate};
ghost use Rattle.world.specs.States.{numbers_below, unused, resting_worker};

use crate::actors::Ticket;
use crate::limits::Limits;
use crate::past::Past;
use crate::slot::Slot;
use crate::worker::Worker;
use kernel_model::Kernel;
use std::alloc::{AllocError, Global};
use std::marker::Model;
use token::Name;

/// The whole machine: the kernel, the poller, the workers and the slots.
#[derive(Drop)]
pub struct World {
    pub(crate) alloc: Global,
    pub(crate) limits: Limits,
    pub(crate) second: u64,
    pub(crate) kernel: Kernel,
    pub(crate) flag: bool,
    pub(crate) accepted: bool,
    pub(crate) table: Vec<u64>,
    pub(crate) batch: Vec<Name>,
    pub(crate) hand: Vec<Ticket>,
    pub(crate) ready: Vec<Ticket>,
    pub(crate) free: Vec<usize>,
    pub(crate) slots: Vec<Slot>,
    pub(crate) workers: Vec<Worker>,
    pub(crate) past: Vec<Past>,
}

impl Model for World {
    ghost use Rattle.std.specs.Prelude.{◌≤◌};
    ghost use Rattle.world.specs.States.{State};

    ghost Value = { State };

    ghost view = { λ w. record {
      limits = w.limits;
      second = w.second;
      kernel = w.kernel;
      flag = w.flag;
      accepted = w.accepted;
      table = w.table.items;
      batch = w.batch.items;
      hand = w.hand.items;
      ready = w.ready.items;
      free = w.free.items;
      slots = w.slots.items;
      workers = w.workers.items;
      past = w.past.items;
    } };

    ghost invariant = { λ w. (1 ≤ w.limits.ring) × (w.limits.ring ≤ 65536) };
}

impl World {
    ghost use Rattle.std.specs.Prelude.{◌≡◌, IfOk, replicate};
    ghost use Rattle.world.specs.States.{IsWithinLimits, opening};

    /// A world as it starts, at second 0: every slot is free and has the generation of the limits. Fails only for want
    /// of memory.
    pub fn new(alloc: Global, limits: Limits) -> Result<World, AllocError>
        requires { IsWithinLimits limits }
        ensures { IfOk result (λ world. world ≡ opening limits) }
    {
        Ok(World {
            table: vec![in alloc; limits.generation; limits.slots]?,
            free: numbers_below(alloc, limits.slots)?,
            slots: unused_slots(alloc, limits.slots, limits.generation)?,
            workers: resting_workers(alloc, limits.workers)?,
            alloc,
            limits,
            second: 0,
            kernel: Kernel::new(alloc),
            flag: true,
            accepted: false,
            batch: Vec::new(alloc),
            hand: Vec::new(alloc),
            ready: Vec::new(alloc),
            past: Vec::new(alloc),
        })
    }
}

fn numbers_below(alloc: Global, count: usize) -> Result<Vec<usize>, AllocError>
    ensures { IfOk result (λ numbers. numbers.items ≡ numbers_below count) }
{
    let mut numbers = Vec::with_capacity(alloc, count)?;
    for number in 0..count {
        numbers.push(number)?;
    }
    Ok(numbers)
}

fn unused_slots(alloc: Global, count: usize, generation: u64) -> Result<Vec<Slot>, AllocError>
    ensures { IfOk result (λ slots. slots.items ≡ replicate count (unused generation)) }
{
    let mut slots = Vec::with_capacity(alloc, count)?;
    for _slot in 0..count {
        slots.push(Slot::new(alloc, generation))?;
    }
    Ok(slots)
}

fn resting_workers(alloc: Global, count: usize) -> Result<Vec<Worker>, AllocError>
    ensures { IfOk result (λ workers. workers.items ≡ replicate count resting_worker) }
{
    let mut workers = Vec::with_capacity(alloc, count)?;
    for _worker in 0..count {
        workers.push(Worker::new())?;
    }
    Ok(workers)
}
