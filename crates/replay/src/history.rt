//! A world, and how it came about.
use crate::action::{Action, action_in};
use kernel_model::Refusal;
use std::alloc::{AllocError, Global};
use std::marker::Model;
use world::{Event, Limits, World};

/// A world from its opening on, with each event that has happened in it, and the actions of these events. Only this
/// module makes or changes a history, so its world is the one after its events.
#[derive(Drop)]
pub(crate) struct History {
    limits: Limits,
    world: World,
    events: Vec<Event>,
    trace: Vec<Action>,
}

impl Model for History {
    ghost use Rattle.replay.specs.Traces.{HistoryState, IsHistory};

    ghost Value = { HistoryState };

    ghost view = { λ h. record { limits = h.limits; events = h.events.items; world = h.world; trace = h.trace.items } };

    ghost invariant = { λ h.
        IsHistory (record { limits = h.limits; events = h.events.items; world = h.world; trace = h.trace.items }) };
}

impl History {
    ghost use Rattle.std.specs.Prelude.{◌≡◌, [], ◌∷◌, ◌++◌, IfOk, OnOk, OnErr};
    ghost use Rattle.world.specs.States.{IsWithinLimits};
    ghost use Rattle.replay.specs.Traces.{IsHistory};

    /// The opening world with these limits, in which nothing has happened yet.
    pub(crate) fn new(alloc: Global, limits: Limits) -> Result<History, AllocError>
        requires { IsWithinLimits limits }
        ensures { IfOk result (λ history. (history.limits ≡ limits) × (history.events ≡ [])) }
    {
        Ok(History {
            limits,
            world: World::new(alloc, limits)?,
            events: Vec::new(alloc),
            trace: Vec::new(alloc),
        })
    }

    /// An event happens, or is refused: by the world, or with `NoMemory`. A refusal changes nothing.
    pub(crate) fn put(&mut self, event: Event) -> Result<(), (Refusal, Event)>
        ensures put { OnOk result (self.new.events ≡ self.old.events ++ event ∷ []) }
        ensures limits { self.new.limits ≡ self.old.limits }
        ensures refused { OnErr result (self.new ≡ self.old) }
    {
        if let Err(error) = self.events.reserve(1).and(self.trace.reserve(1)) {
            return Err((Refusal::from(error), event));
        }
        let action = action_in(&self.world, &event);
        if let Err(refusal) = self.world.step(&event) {
            return Err((refusal, event));
        }
        self.events.push_reserved(event);
        if let Some(action) = action {
            self.trace.push_reserved(action);
        }
        Ok(())
    }

    pub(crate) fn limits(&self) -> Limits
        ensures { result ≡ self.now.limits }
    {
        self.limits
    }

    /// The world after all events.
    pub(crate) fn world(&self) -> &World
        ensures { result.now ≡ self.now.world }
    {
        &self.world
    }

    pub(crate) fn events(&self) -> &[Event]
        ensures { result.now ≡ self.now.events }
    {
        self.events.as_slice()
    }

    /// The actions of the events, in order.
    pub(crate) fn trace(&self) -> &[Action]
        ensures value { result.now ≡ self.now.trace }
        ensures of_run { IsHistory self.now }
    {
        self.trace.as_slice()
    }
}
