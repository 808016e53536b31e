//! A text that is put together piece by piece, and is lost once memory runs out.
ghost use Rattle.std.specs.{Prelude.{◌≡◌, [], Some, None, IfOk, string_bytes, if◌then◌else◌, flat_map}, Fmt.decimal};
ghost use Rattle.world_text.specs.Pages.{AddsText, piece_text, pieces_text, stream_text, yes_or_no};

use std::alloc::{AllocError, Global};
use std::marker::Model;
use token::Name;
use world::Ticket;

/// A piece of a text.
#[derive(Clone, Copy)]
pub enum Piece<'a> {
    Text(&'a str),
    /// A number in decimal digits.
    Number(u64),
    /// A text, and a number right after it.
    Named(&'a str, u64),
    /// Bytes in lower-case hexadecimal, `-` for none.
    Bytes(&'a [u8]),
}

/// A text that grows. Once memory for a piece ran out, the text is lost, and [`Page::finish`] reports that.
#[derive(Drop)]
pub struct Page {
    alloc: Global,
    text: String,
    lost: Option<AllocError>,
}

impl Model for Page {
    ghost use Rattle.std.specs.Prelude.{ℕ, List, Option, Some, None, is_some, if◌then◌else◌, string_bytes};

    ghost Value = { Option (List ℕ) };

    ghost view = { λ p. if is_some p.lost then None else Some (string_bytes p.text) };
}

impl Page {
    /// An empty text.
    pub fn new(alloc: Global) -> Page
        ensures { result ≡ Some [] }
    {
        Page {
            alloc,
            text: String::new(alloc),
            lost: None,
        }
    }

    pub(crate) fn alloc(&self) -> Global {
        self.alloc
    }

    /// Notes that memory for a piece ran out: the text is lost.
    pub(crate) fn lose(&mut self, error: AllocError)
        ensures { self.new ≡ None }
    {
        self.lost = Some(error);
    }

    /// Adds these pieces.
    pub fn put(&mut self, pieces: &[Piece<'_>])
        ensures { AddsText self.old self.new (pieces_text pieces.now) }
    {
        for piece in pieces {
            if let Err(error) = self.add(piece) {
                self.lost = Some(error);
            }
        }
    }

    fn add(&mut self, piece: &Piece<'_>) -> Result<(), AllocError>
        ensures { IfOk result (λ _. AddsText self.old self.new (piece_text piece.now)) }
    {
        match *piece {
            Piece::Bytes([]) => self.text.push_str("-"),
            Piece::Text(text) => self.text.push_str(text),
            Piece::Number(number) => write!(self.text, "{number}"),
            Piece::Named(name, number) => write!(self.text, "{name}{number}"),
            Piece::Bytes(bytes) => {
                let digits = hex::encode(self.alloc, bytes)?;
                self.text.push_str(digits.as_str())
            }
        }
    }

    /// The text, if there was memory for all of it.
    pub fn finish(self) -> Result<String, AllocError>
        ensures { IfOk result (λ text. self ≡ Some (string_bytes text)) }
    {
        match self.lost {
            Some(error) => Err(error),
            None => Ok(self.text),
        }
    }
}

/// What can be written as an item of a list.
pub(crate) trait Listed {
    ghost use Rattle.std.specs.Prelude.{ℕ, List};
    ghost use Rattle.world_text.specs.Pages.{AddsText};

    ghost text: { Self → List ℕ };

    fn put(&self, page: &mut Page)
        ensures { AddsText page.old page.new (Self.text self.now) };
}

/// Adds all items of a list.
pub(crate) fn put_all<T: Listed>(page: &mut Page, items: &[T])
    ensures { AddsText page.old page.new (flat_map T.text items.now) }
{
    for item in items {
        item.put(page);
    }
}

/// A space, and then the name as the line of a poll has it.
impl Listed for Name {
    ghost use Rattle.std.specs.Prelude.{◌++◌, codes};
    ghost use Rattle.world_text.specs.Pages.{name_text};

    ghost text = { λ name. codes " " ++ name_text name };

    fn put(&self, page: &mut Page) {
        match *self {
            Name::Listener => page.put(&[Piece::Text(" listener")]),
            Name::Waker => page.put(&[Piece::Text(" waker")]),
            Name::End(token) => page.put(&[
                Piece::Named(" ", token.slot() as u64),
                Piece::Named(".", token.generation()),
                Piece::Text("."),
                Piece::Text(token.side().name()),
            ]),
        }
    }
}

impl Listed for Ticket {
    ghost use Rattle.std.specs.Prelude.{◌++◌, codes};
    ghost use Rattle.world_text.specs.Pages.{ticket_text};

    ghost text = { λ ticket. codes " " ++ ticket_text ticket };

    fn put(&self, page: &mut Page) {
        page.put(&[
            Piece::Named(" ", self.slot as u64),
            Piece::Named(".", self.generation),
        ]);
    }
}

impl Listed for usize {
    ghost use Rattle.std.specs.{Prelude.{◌++◌, codes}, Fmt.decimal};

    ghost text = { λ number. codes " " ++ decimal number };

    fn put(&self, page: &mut Page) {
        page.put(&[Piece::Named(" ", *self as u64)]);
    }
}

/// Adds the rest of the line of one direction, after the sent bytes and perhaps a lead.
pub fn put_stream<'a>(page: &mut Page, ring: &'a [u8], unread: &'a [u8], ended: bool, shut: bool)
    ensures { AddsText page.old page.new (stream_text ring.now unread.now ended shut) }
{
    page.put(&[
        Piece::Text(" ring="),
        Piece::Bytes(ring),
        Piece::Text(" unread="),
        Piece::Bytes(unread),
        Piece::Text(" end="),
        Piece::Text(yes_or_no(ended)),
        Piece::Text(" shut="),
        Piece::Text(yes_or_no(shut)),
        Piece::Text("\n"),
    ]);
}

/// A truth value as shown in a report.
pub(crate) fn yes_or_no(is_so: bool) -> &'static str
    ensures { result.now ≡ yes_or_no is_so }
{
    if is_so { "yes" } else { "no" }
}

pub(crate) fn one_of(is_first: bool, first: &'static str, second: &'static str) -> &'static str
    ensures { result.now ≡ (if is_first then first.now else second.now) }
{
    if is_first { first } else { second }
}
