// The table of parts, in the order of their numbers: a plain table, whose laws are the draft's.

ghost use Rattle.std.specs.Prelude.{◌≡◌, ◌+◌, ◌<◌, ◌≤◌, [], ◌∷◌, ◌++◌, IfOk, MatchResult, vec_len, vec_capacity, slice_index_or};
ghost use Rattle.std.specs.Borrow.{sem, follows};
ghost use Rattle.std.specs.Vec.{with_item};
ghost use Rattle.cost.specs.Totals.{Fits32};
ghost use Rattle.theory.specs.Edits.{Handed, part};
ghost use Rattle.theory.specs.contracts.part.Part.{the_row as part-row};
ghost use Rattle.draft.specs.contracts.parts.Parts.{the_row as parts-row};

use cost::quote::Quote;
use scale::question::LEVELS;
use std::alloc::{AllocError, Global};
use theory::limits::MOST_PARTS;
use theory::part::Part;
use theory::refusal::Refusal;

#[derive(Drop)]
pub struct Parts {
    records: Vec<Part>,
}

// What the type of a quote says: its numbers have 32 bits.
fn fits(quote: Quote)
    ensures { Fits32 quote }
{}

// A part's record, built here alone.
pub(crate) fn part_record(floor: u8, ceiling: u8, quotes: [Quote; LEVELS]) -> Part
    ensures value { result ≡ record { floor = floor; ceiling = ceiling; quotes = quotes } }
    ensures handed { Handed (part floor ceiling quotes) }
{
    for quote in &quotes {
        fits(*quote);
    }
    Part {
        floor,
        ceiling,
        quotes,
    }
}

impl Parts {
    // An empty table with room for all parts that may ever stand.
    pub(crate) fn new(heap: Global) -> Result<Parts, AllocError>
        ensures { IfOk result (λ table. (table.records.items ≡ []) × (MOST_PARTS ≤ vec_capacity table.records)) }
    {
        let records = Vec::with_capacity(heap, MOST_PARTS)?;
        Ok(Parts { records })
    }

    pub(crate) fn clear(&mut self)
        ensures items { self.new.records.items ≡ [] }
        ensures capacity { vec_capacity self.new.records ≡ vec_capacity self.old.records }
    {
        self.records.clear();
    }

    pub(crate) fn count(&self) -> usize
        ensures { result ≡ vec_len self.now.records }
    {
        self.records.len()
    }

    pub(crate) fn all(&self) -> &[Part]
        ensures { result.now ≡ self.now.records.items }
    {
        self.records.as_slice()
    }

    // Where a part's record is; `as`, since `usize` has no `From<u32>`.
    pub(crate) fn place(&self, number: u32) -> Result<usize, Refusal>
        ensures { MatchResult result
            (λ place. (place ≡ number) × (place < vec_len self.now.records))
            (λ refusal. (refusal ≡ Refusal.NoSuchPart) × (vec_len self.now.records ≤ number)) }
    {
        let place = number as usize;
        if place < self.count() {
            Ok(place)
        } else {
            Err(Refusal::NoSuchPart)
        }
    }

    // One part more, for which there is room.
    pub(crate) fn add(&mut self, part: Part)
        requires { vec_len self.old.records < vec_capacity self.old.records }
        ensures items { self.new.records.items ≡ self.old.records.items ++ part ∷ [] }
        ensures capacity { vec_capacity self.new.records ≡ vec_capacity self.old.records }
    {
        self.records.push_reserved(part);
    }

    // One part's record, to be changed; every other stays.
    pub(crate) fn record(&mut self, place: usize) -> &mut Part
        requires { place < vec_len self.old.records }
        ensures* follows { sem 𝓛 (follows parts-row part-row self.entry.ghost_name result.ghost_name (λ w. record { records = with_item self.old.records place w })) }
        ensures value { result.now ≡ slice_index_or self.old.records.items place result.now }
    {
        &mut self.records[place]
    }
}
