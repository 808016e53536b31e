//! What is true in every state that meets the claim rule. The functions do nothing: the contract of each is the law
//! that it is named after.

ghost use Rattle.claims.specs.Laws.{HistoriesCount, OneHolderEach, NotesAreKept, TicketsAreNeeded};

/// The seats' traces of a slot count what its word says of notes, holders and tickets.
pub fn histories_count()
    ensures { HistoriesCount }
{}

/// Two seats that hold the same slot are the same seat.
#[tactic(auto, using(crate::proofs::Steps::Rule::one_holder_each))]
pub fn one_holder_each()
    ensures { OneHolderEach }
{}

/// The notes that wait at a slot, by its word, are those that were posted there and not taken.
pub fn notes_are_kept()
    ensures { NotesAreKept }
{}

/// The tickets that are out for a slot are those that its word asks for: one while notes wait and it is not marked as
/// held, otherwise none.
pub fn tickets_are_needed()
    ensures { TicketsAreNeeded }
{}
