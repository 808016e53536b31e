//! What became of each connection, by the records alone: no event of the machine is kept, and no record. So it is not
//! asked whether the records are those of a run.
use crate::entry::{Entry, opened, whose};
use crate::moments::Moments;
use crate::writing::{flush, write_left_out, write_text};
use record_lines::Record;
use record_reader::{Sizes, Take, read_each};
use std::alloc::{AllocError, Global};
use std::io::{Read, Write};
use tools::{Judged, ReplayFault};

/// The connections of a slot: the lines of those before the last one, and that one.
#[derive(Drop)]
struct Place {
    past: String,
    last: Option<Entry>,
}

#[derive(Drop)]
struct Ends {
    alloc: Global,
    places: Vec<Place>,
    moments: Moments,
}

/// Writes a line for each connection of a recording, by slot and generation. Takes memory for these lines and for each
/// slot, and none for what moved.
pub(crate) fn write_ends<R: Read, W: Write>(
    alloc: Global,
    input: &mut R,
    output: &mut W,
) -> Result<Judged, ReplayFault> {
    let mut ends = Ends {
        alloc,
        places: Vec::new(alloc),
        moments: Moments::new(alloc),
    };
    let outcome = ends.follow(input, output);
    drop(ends);
    outcome
}

impl Place {
    /// A record of the last connection follows, unless it is of another generation.
    fn add(&mut self, generation: Option<u64>, record: &Record, at: u64) {
        if let Some(last) = &mut self.last {
            if generation.unwrap_or(last.generation) == last.generation {
                last.add(record, at);
            }
        }
    }

    /// Adds the line of the last connection.
    fn close(&mut self, alloc: Global, moments: &Moments) -> Result<(), AllocError> {
        if let Some(last) = self.last.take() {
            let line = last.line(alloc, moments.failed, moments.last())?;
            self.past.push_str(line.as_str())?;
        }
        Ok(())
    }
}

impl Take for Ends {
    fn begin(&mut self, sizes: Sizes) -> Result<(), AllocError> {
        for _slot in 0..sizes.header.slots {
            self.places.push(Place {
                past: String::new(self.alloc),
                last: None,
            })?;
        }
        self.moments.begin(sizes)
    }

    fn take(&mut self, _line: u64, record: Record) -> Result<(), AllocError> {
        self.moments.take(&record);
        if let Some((slot, generation)) = opened(&record.act) {
            return self.open(slot, generation);
        }
        let Some((slot, generation)) = whose(&record.act) else {
            return Ok(());
        };
        let at = self.moments.at(slot);
        if let Some(place) = self.places.get_mut(slot) {
            place.add(generation, &record, at);
        }
        Ok(())
    }

    fn leave_out(&mut self, record: Record) -> Result<(), AllocError> {
        self.moments.take(&record);
        Ok(())
    }
}

impl Ends {
    fn follow<R: Read, W: Write>(
        &mut self,
        input: &mut R,
        output: &mut W,
    ) -> Result<Judged, ReplayFault> {
        let rest = read_each(self.alloc, input, self)?;
        write_left_out(output, self.alloc, rest.left_out)?;
        for place in self.places.as_mut_slice().iter_mut() {
            place.close(self.alloc, &self.moments)?;
            write_text(output, place.past.as_str())?;
        }
        flush(output, Judged::Run)
    }

    fn open(&mut self, slot: usize, generation: u64) -> Result<(), AllocError> {
        let Some(place) = self.places.get_mut(slot) else {
            return Ok(());
        };
        place.close(self.alloc, &self.moments)?;
        let at = self.moments.at(slot);
        place.last = Some(Entry::new(slot, generation, self.moments.has_lead, at));
        Ok(())
    }
}
