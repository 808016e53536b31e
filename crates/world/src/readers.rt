// The parts of a world that a report shows.
use crate::actors::Ticket;
use crate::limits::Limits;
use crate::past::Past;
use crate::slot::Slot;
use crate::worker::Worker;
use crate::world::World;
use kernel_model::Kernel;
use token::Name;

impl World {
    ghost use Rattle.std.specs.Prelude.{◌≡◌};

    /// The sizes of the world.
    pub fn limits(&self) -> Limits
        ensures { result ≡ self.now.limits }
    {
        self.limits
    }

    /// The seconds that have passed since the opening.
    pub fn second(&self) -> u64
        ensures { result ≡ self.now.second }
    {
        self.second
    }

    /// The open ends, the readiness queue and the listener.
    pub fn kernel(&self) -> &Kernel
        ensures { result.now ≡ self.now.kernel }
    {
        &self.kernel
    }

    /// Whether an accept is worth trying.
    pub fn accept_flag(&self) -> bool
        ensures { result ≡ self.now.flag }
    {
        self.flag
    }

    /// Whether the poller has an accepted connection to open.
    pub fn has_accepted(&self) -> bool
        ensures { result ≡ self.now.accepted }
    {
        self.accepted
    }

    /// The names of the batch that the poller has still to deliver, in order.
    pub fn batch(&self) -> &[Name]
        ensures { result.now ≡ self.now.batch }
    {
        self.batch.as_slice()
    }

    /// The tickets that the poller has still to put, in order.
    pub fn poller_hand(&self) -> &[Ticket]
        ensures { result.now ≡ self.now.hand }
    {
        self.hand.as_slice()
    }

    /// The tickets in the ready queue, in order.
    pub fn ready(&self) -> &[Ticket]
        ensures { result.now ≡ self.now.ready }
    {
        self.ready.as_slice()
    }

    /// The slots in the free queue, in order.
    pub fn free_slots(&self) -> &[usize]
        ensures { result.now ≡ self.now.free }
    {
        self.free.as_slice()
    }

    /// All slots.
    pub fn slots(&self) -> &[Slot]
        ensures { result.now ≡ self.now.slots }
    {
        self.slots.as_slice()
    }

    /// All workers.
    pub fn workers(&self) -> &[Worker]
        ensures { result.now ≡ self.now.workers }
    {
        self.workers.as_slice()
    }

    /// The connections that were closed, in order.
    pub fn past(&self) -> &[Past]
        ensures { result.now ≡ self.now.past }
    {
        self.past.as_slice()
    }
}
