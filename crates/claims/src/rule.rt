// The claim rule, as the rule of a table of words, and all six kinds of step, each with what it shows the seat that
// made it.
ghost use Rattle.std.specs.Prelude.{ℕ, ◌-◌, length};
ghost use Rattle.claims.specs.{Rule.{ClaimRule, KeepsRule}, Views.unused_view, Words.{post, claim, take, release, retire, adopt}};

use crate::view::View;
use atomic_table::{Play, Split, TableRule};

// The key is the number of slots and the number of seats.
pub(crate) struct OneHolder;

impl TableRule<(), View, (usize, usize)> for OneHolder {
    ghost holds = { λ size state. ClaimRule size.0 state.words state.views };

    ghost first = { λ size. unused_view size.0 (size.1 - 1) };
}

pub(crate) struct NextSeat;

impl Split<View> for NextSeat {
    ghost left = { λ v. record v { spare = v.spare - 1 } };

    ghost right = { λ v. unused_view (length v.traces) 0 };
}

// The steps. Each adds its exchange to the seat's trace.

pub(crate) struct Post;

impl Play<(), View> for Post {
    ghost then = { λ step old found new. (slots : ℕ) × KeepsRule post slots step.word found old.0 new.0 };
}

pub(crate) struct Claim;

impl Play<(), View> for Claim {
    ghost then = { λ step old found new. (slots : ℕ) × KeepsRule claim slots step.word found old.0 new.0 };
}

pub(crate) struct Take;

impl Play<(), View> for Take {
    ghost then = { λ step old found new. (slots : ℕ) × KeepsRule take slots step.word found old.0 new.0 };
}

pub(crate) struct Release;

impl Play<(), View> for Release {
    ghost then = { λ step old found new. (slots : ℕ) × KeepsRule release slots step.word found old.0 new.0 };
}

pub(crate) struct Retire;

impl Play<(), View> for Retire {
    ghost then = { λ step old found new. (slots : ℕ) × KeepsRule retire slots step.word found old.0 new.0 };
}

pub(crate) struct Adopt;

impl Play<(), View> for Adopt {
    ghost then = { λ step old found new. (slots : ℕ) × KeepsRule adopt slots step.word found old.0 new.0 };
}
