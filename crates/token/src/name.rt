//! What a report is about, as one number and back.
ghost use Rattle.std.specs.Prelude.{◌≡◌, ◌≤◌, ◌↔◌, Some};
ghost use Rattle.token.specs.{Numbers.{IsName, name_number, name_of}, declared.name.Name.Name};

use crate::limits::NUMBERS_PER_GENERATION;
use crate::side::Side;
use crate::token::Token;

/// What a report is about.
#[derive(Clone, Copy, PartialEq, Eq)]
pub enum Name {
    /// The listening socket: number 0.
    Listener,
    /// The waker, with which another thread ends a wait for reports: number 1.
    Waker,
    /// One end of one connection.
    End(Token),
}

impl Name {
    /// The name as one number.
    pub fn number(self) -> u64
        ensures number { result ≡ name_number self }
        ensures unpacks { name_of result ≡ Some self }
    {
        match self {
            Name::Listener => 0,
            Name::Waker => 1,
            Name::End(token) => token.value(),
        }
    }
}

/// The name that a number stands for, if any: the inverse of [`Name::number`].
pub fn unpack(number: u64) -> Option<Name>
    ensures value { result ≡ name_of number }
    ensures inverse { (name : Name) → IsName name → (result ≡ Some name) ↔ (name_number name ≡ number) }
{
    match number {
        0 => Some(Name::Listener),
        1 => Some(Name::Waker),
        _ => end_of(number),
    }
}

fn end_of(number: u64) -> Option<Name>
    requires { 2 ≤ number }
    ensures { result ≡ name_of number }
{
    let slot = (number % NUMBERS_PER_GENERATION / 2) as usize;
    let side = if number % 2 == 0 {
        Side::Client
    } else {
        Side::Target
    };
    match Token::pack(slot, side, number / NUMBERS_PER_GENERATION) {
        Ok(token) => Some(Name::End(token)),
        Err(_) => None,
    }
}
