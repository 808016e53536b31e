// How ends sleep, and who wakes them: each step gives the value that the next one asks for, and nothing else makes it.
// A comment at each atomic step names the one that it pairs with.
ghost use Rattle.std.specs.{Prelude.{◌≡◌, ◌≢◌, ◌<◌, ◌↔◌, ℕ, IsErr, IsOk, IsSome, IsSomeAnd, IsTrue, IfErr, IfOk, OnOk, None, Some, length, slice_get, true, not}, Int.{trailing_zeros, w32}};
ghost use Rattle.queues.specs.Steps.{ReadBits, SetBits, ClearedBits, bit_of, has_bit};

use crate::flags::{Bits, Unpark};
use crate::idle::EndNumber;
use std::marker::PhantomData;
use std::sync::Wait;
use std::sync::atomic::AtomicU32;

/// What items are put into. The trait leaves open what that is.
pub trait Put<T> {
    // The item was put, between the first and the second. It was refused, which gave this.
    ghost did_put: { Self → T → Self → Type 0 };

    ghost refused: { Self → T → Self.Refused → Self → Type 0 };

    /// What shows that the item was refused.
    type Refused;

    /// Puts an item.
    fn put<R: Wait>(&mut self, rt: &R, item: T) -> Result<(), Self::Refused>
        ensures put { OnOk result (did_put self.old item self.new) }
        ensures refused { IfErr result (λ why. refused self.old item why self.new) };
}

/// What an end looks at. The trait leaves open what a look finds, and what that changes.
pub trait Source {
    ghost state: { Self → Self.State };
    // This was found, between the first and the second. The last look found nothing, which gave this.
    ghost found: { Self.State → Self.Found → Self.State → Type 0 };

    ghost held_none: { Self → Self.Nothing → Type 0 };

    type Found;

    /// What clauses say of it.
    type State;

    /// What shows that it held nothing at one moment.
    type Nothing: Drop;

    /// Looks once.
    fn look<R: Wait>(&mut self, rt: &R) -> Result<Self::Found, Self::Nothing>
        ensures found { IfOk result (λ it. found (state self.old) it (state self.new)) }
        ensures none { IfErr result (λ nothing. (state self.new ≡ state self.old) × held_none self.new nothing) };
}

/// A bit for each end. It is set while the end has parked or is about to, and nobody has woken it yet.
#[derive(Drop)]
pub(crate) struct IdleBits<W = AtomicU32>(W);

/// Shows that one look found no end idle. Only [`IdleBits::all_busy`] makes one, and it cannot be copied: each needs a
/// look of its own.
#[derive(Drop)]
pub struct AllBusy(());

/// An end that has announced that it is idle. Only [`IdleBits::announce`] makes one. It can be neither copied nor
/// dropped, so each announcement is withdrawn once, or slept on once.
pub(crate) struct Announced {
    end: usize,
    ghost few: { end < 32 },
}

/// An end that announced itself, looked in vain, and has slept. Only [`sleep`] makes one. It can be neither copied nor
/// dropped, so it rises once.
pub(crate) struct Slept {
    end: usize,
    ghost few: { end < 32 },
}

/// The duty to wake an idle end for an item that was put. Only [`push`] makes one, and [`IdleBits::withdraw`] if
/// another thread has spent a wake on the caller's end. A wake can be neither copied nor dropped: it is `Spent` at bits
/// of its kind, `W`. Code over any kind has no bits but those that it is given.
pub(crate) struct Wake<W>(PhantomData<W>);

/// A wake was spent after its item was put: this end was unparked for it, or one look found no end idle.
#[derive(Drop)]
pub struct Spent(Option<usize>);

/// Whether the queue was closed when a step read or set the mark. Only such a step makes one. It cannot be copied.
#[derive(Drop)]
pub(crate) struct MarkSeen {
    closed: bool,
}

/// A look was in vain, after the step that gave the first. It gave the second. Only [`look`] makes one.
#[derive(Drop)]
pub(crate) struct InVain<A, N>(A, N);

/// A look was made after the step that gave this, and if it was in vain the end has slept.
#[derive(Drop)]
pub(crate) struct Looked<A>(A);

/// The queue was closed, and then a look was in vain. Only [`was_closed`] makes one.
#[derive(Drop)]
pub struct Drained<N = ()> {
    seen: MarkSeen,
    /// What that look gave.
    pub nothing: N,
    ghost closed: { seen.closed ≡ true },
}

/// Puts an item, and returns the wake that it needs.
pub(crate) fn push<T, L: Put<T>, W>(
    rt: &impl Wait,
    line: &mut L,
    item: T,
) -> Result<Wake<W>, L::Refused>
    ensures put { OnOk result (L.did_put line.old item line.new) }
    ensures refused { IfErr result (λ why. L.refused line.old item why line.new) }
{
    line.put(rt, item)?;
    Ok(Wake(PhantomData))
}

/// Looks, after the step that gave `after`.
pub(crate) fn look<A, L: Source>(
    rt: &impl Wait,
    after: A,
    line: &mut L,
) -> Result<(L::Found, Looked<A>), InVain<A, L::Nothing>>
    ensures found { IfOk result (λ it. L.found (L.state line.old) it.0 (L.state line.new) × (it.1.0 ≡ after)) }
    ensures none { IfErr result (λ vain. (L.state line.new ≡ L.state line.old) × L.held_none line.new vain.1) }
    ensures after { IfErr result (λ vain. vain.0 ≡ after) }
{
    match line.look(rt) {
        Ok(it) => Ok((it, Looked(after))),
        Err(nothing) => Err(InVain(after, nothing)),
    }
}

/// After a look in vain. Ok: the queue was closed before it.
pub(crate) fn was_closed<N>(vain: InVain<MarkSeen, N>) -> Result<Drained<N>, InVain<MarkSeen, N>>
    ensures open { IfErr result (λ vain. vain.0.closed ≢ true) }
    ensures closed { OnOk result (vain.0.closed ≡ true) }
    ensures nothing { IfOk result (λ drained. drained.nothing ≡ vain.1) }
{
    let InVain(seen, nothing) = vain;
    if seen.closed {
        Ok(Drained { seen, nothing })
    } else {
        Err(InVain(seen, nothing))
    }
}

/// Parks an end that has looked in vain since it announced itself. `parkers` has one for each end, in order.
pub(crate) fn sleep<N: Drop, U: Unpark>(
    rt: &impl Wait,
    acts: &mut U::Acts,
    vain: InVain<Announced, N>,
    parkers: &[U],
) -> Slept
    requires { vain.0.end < length parkers.now }
    ensures end { result.end ≡ vain.0.end }
    ensures parked { IsSomeAnd (slice_get parkers.now vain.0.end) (λ parker. U.parked parker acts.old acts.new) }
{
    let InVain(Announced { end }, _) = vain;
    parkers[end].sleep(rt, acts);
    Slept { end }
}

impl IdleBits {
    pub(crate) fn new() -> IdleBits {
        IdleBits(AtomicU32::new(0))
    }
}

impl<W: Bits> IdleBits<W> {
    /// Sets the bit of an end that found the queue open, and then looked in vain.
    pub(crate) fn announce<N: Drop>(
        &self,
        acts: &mut W::Acts,
        end: &EndNumber,
        vain: InVain<MarkSeen, N>,
    ) -> Announced
        requires open { vain.0.closed ≢ true }
        ensures same { result.end ≡ end.now.number }
        ensures set { (before : ℕ) × W.did (SetBits (bit_of end.now.number) before) self.now.0 acts.old acts.new }
    {
        // Pairs with `look_for`. A put pushes and then reads the bits; an end sets its bit and then looks. So one of
        // the two sees the other's step. If the end looked first, it could park although a put came in between.
        let end = end.number;
        self.0.set(acts, 1u32 << end);
        Announced { end }
    }

    /// Clears the bit of an end that has looked since it announced itself. If another thread had cleared the bit
    /// before, returns the wake that it spent on this end.
    pub(crate) fn withdraw(&self, acts: &mut W::Acts, looked: Looked<Announced>) -> Option<Wake<W>>
        ensures cleared { (before : ℕ) × W.did (ClearedBits (bit_of looked.0.end) before) self.now.0 acts.old acts.new
            × (IsSome result ↔ IsTrue (not (has_bit looked.0.end before))) }
    {
        // Pairs with `wake`: only one of the two finds the bit set. If both could, nobody would pass that wake on, and
        // the other put's item would wait until this end comes back, while a third end sleeps.
        let Looked(Announced { end }) = looked;
        let bit = 1u32 << end;
        if self.0.clear(acts, bit) & bit != 0 {
            return None;
        }
        Some(Wake(PhantomData))
    }

    /// Clears the bit of an end that has slept. The end looks again, so a wake that another thread spent on it is used
    /// up.
    pub(crate) fn rise(&self, acts: &mut W::Acts, slept: Slept)
        ensures cleared { (before : ℕ) × W.did (ClearedBits (bit_of slept.end) before) self.now.0 acts.old acts.new }
    {
        let Slept { end } = slept;
        self.0.clear(acts, 1u32 << end);
    }

    /// Clears the bit of an end, and spends the wake on it: it is unparked. The wake is returned if the bit was clear
    /// already. `parkers` has one for each end, in order.
    pub(crate) fn wake<U: Unpark>(
        &self,
        acts: &mut W::Acts,
        end: usize,
        wake: Wake<W>,
        parkers: &[U],
    ) -> Result<Spent, Wake<W>>
        requires { (end < 32) × (end < length parkers.now) }
        ensures cleared { (before : ℕ) × W.did (ClearedBits (bit_of end) before) self.now.0 acts.old acts.new
            × (IsOk result ↔ IsTrue (has_bit end before)) }
        ensures unparked { IfOk result (λ spent. (spent.0 ≡ Some end) × IsSomeAnd (slice_get parkers.now end) U.unparked) }
    {
        // Pairs with `withdraw`, and with itself: if two puts woke one end, one of their items would be left.
        let bit = 1u32 << end;
        if self.0.clear(acts, bit) & bit == 0 {
            return Err(wake);
        }
        let Wake(_) = wake;
        parkers[end].give();
        Ok(Spent(Some(end)))
    }

    /// Looks once. Returns the lowest end whose bit is set, and the wake; or the wake is spent, since no end is idle.
    pub(crate) fn look_for(
        &self,
        acts: &mut W::Acts,
        wake: Wake<W>,
    ) -> Result<(usize, Wake<W>), Spent>
        ensures looked { (bits : ℕ) × W.did (ReadBits bits) self.now.0 acts.old acts.new × (IsErr result ↔ bits ≡ 0)
            × IfOk result (λ found. found.0 ≡ trailing_zeros w32 bits) }
        ensures end { IfOk result (λ found. found.0 < 32) }
        ensures none { IfErr result (λ spent. spent.0 ≡ None) }
    {
        // Pairs with `announce`. An end that sets its bit after this looks at the queue later, and finds what was
        // pushed.
        let bits = self.0.read(acts);
        if bits != 0 {
            return Ok((bits.trailing_zeros() as usize, wake));
        }
        let Wake(_) = wake;
        Err(Spent(None))
    }

    /// Looks once. Some: no bit is set.
    pub(crate) fn all_busy(&self, acts: &mut W::Acts) -> Option<AllBusy>
        ensures looked { (bits : ℕ) × W.did (ReadBits bits) self.now.0 acts.old acts.new × (IsSome result ↔ bits ≡ 0) }
    {
        // Pairs with nothing: an end may announce itself right after. So who keeps an item has to come back to it.
        let bits = self.0.read(acts);
        if bits == 0 { Some(AllBusy(())) } else { None }
    }
}

/// The mark of a closed queue: a word, which becomes 1. It is never taken back.
#[derive(Drop)]
pub(crate) struct ClosedMark<W = AtomicU32>(W);

impl ClosedMark {
    pub(crate) fn new() -> ClosedMark {
        ClosedMark(AtomicU32::new(0))
    }
}

impl<W: Bits> ClosedMark<W> {
    pub(crate) fn read(&self, acts: &mut W::Acts) -> MarkSeen
        ensures { (bits : ℕ) × W.did (ReadBits bits) self.now.0 acts.old acts.new × (IsTrue result.closed ↔ bits ≡ 1) }
    {
        // Pairs with `set`. If the mark were read after the look at the queue, an item that was put between the look
        // and the close would be left.
        let closed = self.0.read(acts) == 1;
        MarkSeen { closed }
    }

    pub(crate) fn set(&self, acts: &mut W::Acts) -> MarkSeen
        ensures closed { result.closed ≡ true }
        ensures set { (before : ℕ) × W.did (SetBits 1 before) self.now.0 acts.old acts.new }
    {
        // Pairs with `read`. If the ends were woken first, one could look, find no mark and sleep forever.
        self.0.set(acts, 1);
        MarkSeen { closed: true }
    }
}

impl MarkSeen {
    /// Whether the queue was closed.
    pub(crate) fn is_closed(&self) -> bool
        ensures { result ≡ self.now.closed }
    {
        self.closed
    }
}
