// A long list of events, played at once.
ghost use Rattle.world.specs.States.{IsWithinLimits};

use kernel_model::Refusal;
use script_text::{NotRead, read_event};
use std::alloc::{AllocError, Global};
use std::test::Fail;
use world::{Event, Lead, Limits, replay};

/// A connection that sends the lead and three bytes, and then moves nothing for the idle limit.
const LINES: &str =
    "connect; accept ok; open; put poller; pop 0; claim 0; take 0; arrive 0 client 616263; room 0 target; \
     call 0 wrote 2; call 0 blocked; call 0 read 3; call 0 wrote 3; call 0 blocked; \
     post 0; tick 30; idle 0; close 0; retire 0; free 0";

/// Adds the event of a line. Returns false if the line is no event.
fn put(alloc: Global, events: &mut Vec<Event>, line: &str) -> Result<bool, AllocError> {
    match read_event(alloc, line.as_bytes()) {
        Ok(event) => events.push(event)?,
        Err(NotRead::NoMemory) => return Err(AllocError),
        Err(NotRead::Malformed(_)) => return Ok(false),
    }
    Ok(true)
}

/// The hundred events of five connections, one after the other. If there is an event at `wrong`, it cannot happen.
fn session(alloc: Global, wrong: usize) -> Result<Vec<Event>, AllocError> {
    let mut events = Vec::new(alloc);
    for _ in 0..5 {
        for line in LINES.split("; ") {
            let is_wrong = events.len() == wrong;
            put(alloc, &mut events, if is_wrong { "retire 0" } else { line })?;
        }
    }
    Ok(events)
}

fn limits() -> Limits
    ensures { IsWithinLimits result }
{
    Limits {
        slots: 1,
        workers: 1,
        ring: 4,
        budget: 64,
        generation: 0,
        idle: 30,
        lead: Lead::new(b"PP").unwrap_or(Lead::NONE),
    }
}

/// Whether the events lead to their world, or the replay refuses the event at `wrong`.
fn goes(alloc: Global, wrong: usize) -> Result<bool, (usize, Refusal)> {
    let Ok(events) = session(alloc, wrong) else {
        return Err((0, Refusal::NoMemory));
    };
    match replay(alloc, limits(), events.as_slice()) {
        Ok(world) => Ok(wrong == 100 && world.second() == 150 && world.past().len() == 5),
        Err((at, Refusal::NotAllowed)) => Ok(at == wrong),
        Err(refused) => Err(refused),
    }
}

// refuses replay_blames_index_0: the first event is blamed for any event that fails
// If memory runs out, the index of the event that lacked it is printed: `tests/growths` checks that the index rises
// with the refused growth's number.
#[test]
fn a_replay_leads_to_its_world_or_tells_where_it_ends(rt: HostRuntime) -> Result<(), Fail> {
    for wrong in [100, 0, 49, 99] {
        if !goes(rt.alloc(), wrong)? {
            return Err(Fail::from("it leads elsewhere"));
        }
    }
    Ok(())
}
