//! What a connection has come to, act by act, in a few numbers: how many bytes moved, not which.
ghost use Rattle.std.specs.Prelude.{◌≡◌, ◌++◌, ◌∷◌, [], List};
ghost use Rattle.token.specs.declared.side.Side.{Side};
ghost use Rattle.record_lines.specs.declared.act.Act.{Act};
ghost use Rattle.record_reader.specs.Accounts.{IsAccount, IsHalf, is_beginning, drops_wire, ends_at, answer_fault, act_fault, is_sender, is_shown, joins, lead_length, may_send, moved_bytes, offered_to_target, read_at, ring_down, ring_up, is_same_side, sender, settles, shuts_at, waits_at_target, waits_of, written_at};

use record_lines::{Act, Answer, Made};
use relay_core::{CallKind, Fault};
use token::Side;

/// What happened at one end of a connection.
#[derive(Clone, Copy)]
pub struct Half {
    /// Bytes that were read there, and written. A number that has reached 2^64 - 1 stays there.
    pub read: u64,
    pub written: u64,
    /// Whether its end of input was read, and whether the other end's was passed on to it.
    pub ended: bool,
    pub shut: bool,
}

/// What a connection has come to.
#[derive(Clone, Copy)]
pub struct Account {
    pub client: Half,
    pub target: Half,
    /// Whether the target is first sent a line, whose length is that of the first write; and what that write offered.
    pub has_lead: bool,
    pub offer: Option<usize>,
    /// The call that failed, if one did.
    pub fault: Option<Fault>,
    /// The side of which bytes were read last.
    pub sender: Option<Side>,
    /// Whether a join has shown that the target is connected.
    pub joined: bool,
    /// Whether a turn was made, whether an end was dropped, and whether a turn that left no call was the last act.
    pub had_turn: bool,
    pub dropped: bool,
    pub is_quiet: bool,
}

/// What must happen before the relay has something to do for a connection. A pair says it of the client and the target.
#[derive(Clone, Copy)]
pub enum Waits {
    /// It has something to do, or may have.
    Nobody,
    /// The target answers the connect.
    Answers,
    /// These take what waits for them.
    Takes(bool, bool),
    /// One of these sends, or ends.
    Sends(bool, bool),
}

impl Half {
    /// Nothing happened yet.
    fn none() -> Half
        ensures { (side : Side) → IsHalf side [] result }
    {
        Half {
            read: 0,
            written: 0,
            ended: false,
            shut: false,
        }
    }

    /// After one act more.
    #[tactic(auto, using(crate::proofs::Accounts::half_more))]
    fn after(self, side: Side, act: &Act) -> Half
        ensures { (acts : List Act) → IsHalf side acts self → IsHalf side (acts ++ act.now ∷ []) result }
    {
        Half {
            read: self.read.saturating_add(read_at(side, act)),
            written: self.written.saturating_add(written_at(side, act)),
            ended: self.ended || ends_at(side, act),
            shut: self.shut || shuts_at(side, act),
        }
    }
}

impl Account {
    /// A connection that was opened. `has_lead`: its target is first sent a line.
    pub fn new(has_lead: bool) -> Account
        ensures told { IsAccount [] result }
        ensures lead { result.has_lead ≡ has_lead }
    {
        Account {
            client: Half::none(),
            target: Half::none(),
            has_lead,
            offer: None,
            fault: None,
            sender: None,
            joined: false,
            had_turn: false,
            dropped: false,
            is_quiet: false,
        }
    }

    /// The connection after one act more, of its turns or of its ends.
    pub fn after(self, act: &Act) -> Account
        ensures told { (acts : List Act) → IsAccount acts self → IsAccount (acts ++ act.now ∷ []) result }
        ensures lead { result.has_lead ≡ self.has_lead }
    {
        Account {
            client: self.client.after(Side::Client, act),
            target: self.target.after(Side::Target, act),
            has_lead: self.has_lead,
            offer: self.offer.or(offered_to_target(act)),
            fault: self.fault.or(fault_of(act)),
            sender: sender(act).or(self.sender),
            joined: self.joined || joins(act),
            had_turn: self.had_turn || begins(act),
            dropped: self.dropped || drops(act),
            is_quiet: settles(act),
        }
    }

    /// How many bytes wait for the target, beside the line that it is sent first.
    pub fn ring_up(&self) -> u64
        ensures { result ≡ ring_up self.now }
    {
        let lead = self.lead();
        self.client
            .read
            .saturating_sub(self.target.written.saturating_sub(lead))
    }

    /// How many bytes wait for the client.
    pub fn ring_down(&self) -> u64
        ensures { result ≡ ring_down self.now }
    {
        self.target.read.saturating_sub(self.client.written)
    }

    /// The length of the line that the target is sent first.
    fn lead(&self) -> u64
        ensures { result ≡ lead_length self.now }
    {
        match self.offer {
            Some(offer) if self.has_lead => offer as u64,
            _ => 0,
        }
    }

    fn waits_at_target(&self) -> bool
        ensures { result ≡ waits_at_target self.now }
    {
        self.ring_up() > 0 || self.target.written < self.lead()
    }

    /// Whether a call has shown that the target is connected.
    pub fn is_shown(&self) -> bool
        ensures { result ≡ is_shown self.now }
    {
        let target = self.target;
        self.joined || target.read > 0 || target.written > 0 || target.ended || target.shut
    }

    /// What an open connection waits for, whose target is connected or not. `due`: a report came since its last turn.
    pub fn waits(&self, due: bool, connected: bool) -> Waits
        ensures { result ≡ waits_of due connected self.now }
    {
        let (client, target) = (self.ring_down() > 0, self.waits_at_target());
        if due || !self.is_quiet {
            Waits::Nobody
        } else if !connected {
            Waits::Answers
        } else if client || target {
            Waits::Takes(client, target)
        } else {
            let client = may_send(
                self.client,
                self.target,
                is_sender(self.sender, Side::Client),
            );
            let target = may_send(
                self.target,
                self.client,
                is_sender(self.sender, Side::Target),
            );
            Waits::Sends(client, target)
        }
    }
}

fn may_send(own: Half, other: Half, sent_last: bool) -> bool
    ensures { result ≡ may_send own other sent_last }
{
    !own.ended && (other.ended || !sent_last)
}

fn is_sender(sender: Option<Side>, side: Side) -> bool
    ensures { result ≡ is_sender sender side }
{
    matches!(sender, Some(sender) if same(sender, side))
}

pub(crate) fn same(a: Side, b: Side) -> bool
    ensures { result ≡ is_same_side a b }
{
    match (a, b) {
        (Side::Client, Side::Client) | (Side::Target, Side::Target) => true,
        _ => false,
    }
}

fn moved(answer: Answer) -> u64
    ensures { result ≡ moved_bytes answer }
{
    match answer {
        Answer::Moved(count) => count as u64,
        _ => 0,
    }
}

pub(crate) fn read_at(side: Side, act: &Act) -> u64
    ensures { result ≡ read_at side act.now }
{
    match *act {
        Act::Wire(token, Made::Read(_, answer)) if same(side, token.side()) => moved(answer),
        _ => 0,
    }
}

fn written_at(side: Side, act: &Act) -> u64
    ensures { result ≡ written_at side act.now }
{
    match *act {
        Act::Wire(token, Made::Write(_, answer)) if same(side, token.side()) => moved(answer),
        _ => 0,
    }
}

fn ends_at(side: Side, act: &Act) -> bool
    ensures { result ≡ ends_at side act.now }
{
    match *act {
        Act::Wire(token, Made::Read(_, Answer::End)) => same(side, token.side()),
        _ => false,
    }
}

fn shuts_at(side: Side, act: &Act) -> bool
    ensures { result ≡ shuts_at side act.now }
{
    match *act {
        Act::Wire(token, Made::Shut(Answer::Shut)) => same(side, token.side()),
        _ => false,
    }
}

/// The side from which an act brought bytes.
fn sender(act: &Act) -> Option<Side>
    ensures { result ≡ sender act.now }
{
    match *act {
        Act::Wire(token, Made::Read(_, answer)) if moved(answer) > 0 => Some(token.side()),
        _ => None,
    }
}

/// How many bytes an act offered to the target.
fn offered_to_target(act: &Act) -> Option<usize>
    ensures { result ≡ offered_to_target act.now }
{
    match *act {
        Act::Wire(token, Made::Write(length, _)) if same(Side::Target, token.side()) => Some(
            length,
        ),
        _ => None,
    }
}

fn fault_by(side: Side, call: CallKind, answer: Answer) -> Option<Fault>
    ensures { result ≡ answer_fault side call answer }
{
    match answer {
        Answer::Failed(kind) => Some(Fault::Broken { side, call, kind }),
        _ => None,
    }
}

fn fault_of(act: &Act) -> Option<Fault>
    ensures { result ≡ act_fault act.now }
{
    let Act::Wire(token, made) = *act else {
        return None;
    };
    match made {
        Made::Read(_, answer) => fault_by(token.side(), CallKind::Read, answer),
        Made::Write(_, answer) => fault_by(token.side(), CallKind::Write, answer),
        Made::Join(answer) => fault_by(token.side(), CallKind::Join, answer),
        Made::Shut(answer) => fault_by(token.side(), CallKind::Shut, answer),
        Made::Settle | Made::Drop => None,
    }
}

fn begins(act: &Act) -> bool
    ensures { result ≡ is_beginning act.now }
{
    matches!(act, Act::Begin(_))
}

fn joins(act: &Act) -> bool
    ensures { result ≡ joins act.now }
{
    matches!(act, Act::Wire(_, Made::Join(Answer::Joined)))
}

fn drops(act: &Act) -> bool
    ensures { result ≡ drops_wire act.now }
{
    matches!(act, Act::Wire(_, Made::Drop))
}

fn settles(act: &Act) -> bool
    ensures { result ≡ settles act.now }
{
    matches!(act, Act::Wire(_, Made::Settle))
}
