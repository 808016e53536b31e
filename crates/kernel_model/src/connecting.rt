// Opens or closes both ends of a connection in one call.
ghost use Rattle.std.specs.Prelude.{◌≡◌, ◌<◌, ◌+◌, ◌≤◌, ◌↔◌, IsTrue, IsSome, Some, vec_len, vec_capacity};
ghost use Rattle.kernel_model.specs.{Outcome.{Tells, TellsAlways}, Ends.opened, Kernel.{lowest_free, with_end, open_both, close_both}};

use crate::both::{Descriptors, Sockets};
use crate::end::End;
use crate::kernel::{Kernel, Open, lowest_free};
use crate::refusal::Refusal;
use std::alloc::Global;
use token::Token;

#[tactic(auto, using(std::proofs::lemmas::Option::gets, std::proofs::lemmas::Grind::common_steps))]
impl Kernel {
    /// Opens both ends of a connection, the client's first, as [`Kernel::open_end`] does. If the table of descriptors
    /// cannot grow, refuses with `NoMemory` and opens neither.
    pub fn open_both(&mut self, client: Token, target: Token) -> Result<Descriptors, Refusal>
        ensures { Tells (Some (open_both self.old client target)) self.old self.new result }
    {
        self.ends.reserve(2)?;
        let client = place(self.alloc, &mut self.ends, client);
        let target = place(self.alloc, &mut self.ends, target);
        Ok(Descriptors { client, target })
    }

    /// Whether these are two different descriptors, and both are open.
    pub fn may_close_both(&self, ends: Descriptors) -> bool
        ensures { IsTrue result ↔ IsSome (close_both self.now ends) }
    {
        ends.client != ends.target
            && self.end(ends.client).is_some()
            && self.end(ends.target).is_some()
    }

    /// Closes both ends of a connection, as [`Kernel::close`] does, and returns them. If a descriptor is not open, or
    /// both are equal, refuses with `NotAllowed` and closes neither.
    pub fn close_both(&mut self, ends: Descriptors) -> Result<Sockets, Refusal>
        ensures { TellsAlways (close_both self.old ends) self.old self.new result }
    {
        if !self.may_close_both(ends) {
            return Err(Refusal::NotAllowed);
        }
        let client = self.close(ends.client)?;
        let target = self.close(ends.target)?;
        Ok(Sockets { client, target })
    }
}

/// Opens an end at the lowest free descriptor, which it returns. The caller has made room in `ends`.
pub fn place(alloc: Global, ends: &mut Vec<Option<Open>>, token: Token) -> usize
    requires { vec_len ends.old < vec_capacity ends.old }
    ensures descriptor { result ≡ lowest_free ends.old.items }
    ensures items { ends.new.items ≡ with_end ends.old.items result (record { token = token; socket = opened token.side }) }
    ensures len { vec_len ends.new ≤ vec_len ends.old + 1 }
    ensures capacity { vec_capacity ends.old ≤ vec_capacity ends.new }
{
    let descriptor = lowest_free(ends.as_slice());
    let open = Open {
        token,
        socket: End::new(alloc, token.side()),
    };
    if descriptor < ends.len() {
        ends[descriptor] = Some(open);
    } else {
        ends.push_reserved(Some(open));
    }
    descriptor
}
