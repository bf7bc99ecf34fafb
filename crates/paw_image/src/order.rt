// The entries of a table in order of verb and noun.

ghost use Rattle.std.specs.Prelude.{◌≡◌, ◌≤◌, ◌&&◌, ◌==◌, IfOk, false, length, nat_lt, slice_get, slice_index, true};
ghost use Rattle.std.specs.List.Sorted.{IsNonDecreasing, IsPartitionPoint, IsPermutation};
ghost use Rattle.paw_image.specs.inner.Orders.{is_indexed_for, is_match, is_pair, indexed_word, lower};
ghost use Rattle.paw_image.specs.inner.Orders.{entry_rank, ranks_at};
ghost use Rattle.paw_image.specs.inner.Orders.{AreStarts, IsBefore, IsLeast, IsMatch, IsNextAny, IsOrder, IsRun};
ghost use Rattle.paw_image.specs.inner.Orders.{IsSorted, IsStart};

use paw_base::limits::ENTRY_LIMIT;
use paw_base::words::NO_WORD;
use paw_game::values::is_wildcard;
use std::alloc::{AllocError, Global};

/// One more than the greatest verb.
const VERB_COUNT: u16 = 256;

/// The entries of a table by their ranks, in order of verb, noun and number.
#[derive(Drop)]
pub struct Order {
    pub ranks: Vec<u32>,
    /// Where the entries of each verb begin, and where those of the last one end: they are found without a search.
    pub starts: Vec<u16>,
    /// For each entry up to the last that matches any verb and any noun: which of these comes next, from it on. They
    /// too are found without a search.
    pub next_any: Vec<u16>,
}

// The word that stands in the index for an entry's word: the same for both words that match any, so that one search
// finds either.
fn indexed_word(word: u8) -> u8
    ensures value { result ≡ indexed_word word }
{
    if is_wildcard(word) { NO_WORD } else { word }
}

// The rank of an entry in the order of verb, noun and number: one number, so that one comparison orders two entries.
fn rank_of(verb: u8, noun: u8, entry: u16) -> u32
    ensures value { result ≡ entry_rank verb noun entry }
{
    (verb as u32 * 256 + noun as u32) * 65536 + entry as u32
}

// The byte at an offset; 0 past the end.
fn byte_at(bytes: &[u8], offset: usize) -> u8
    ensures value { result ≡ slice_index bytes.now offset }
{
    match bytes.get(offset) {
        Some(byte) => *byte,
        None => 0,
    }
}

// The ranks of the entries that begin at these offsets.
fn ranks_at(alloc: Global, bytes: &[u8], offsets: &[u32]) -> Result<Vec<u32>, AllocError>
    requires few { length offsets.now ≤ ENTRY_LIMIT }
    ensures value { IfOk result (λ v. v.items ≡ ranks_at bytes.now 0 offsets.now) }
{
    let mut ranks = Vec::with_capacity(alloc, offsets.len())?;
    for (entry, offset) in offsets.iter().enumerate() {
        let offset = *offset as usize;
        let verb = indexed_word(byte_at(bytes, offset));
        let noun = indexed_word(byte_at(bytes, offset + 1));
        ranks.push(rank_of(verb, noun, entry as u16))?;
    }
    Ok(ranks)
}

// The ranks of the entries that begin at these offsets, in order.
fn sorted_ranks(alloc: Global, bytes: &[u8], offsets: &[u32]) -> Result<Vec<u32>, AllocError>
    requires few { length offsets.now ≤ ENTRY_LIMIT }
    ensures same { IfOk result (λ v. IsPermutation (ranks_at bytes.now 0 offsets.now) v.items) }
    ensures rises { IfOk result (λ v. IsNonDecreasing v.items) }
    ensures few { IfOk result (λ v. length v.items ≤ ENTRY_LIMIT) }
{
    let mut ranks = ranks_at(alloc, bytes, offsets)?;
    // This sort finds the runs that rise already, and only merges them.
    ranks.sort()?;
    Ok(ranks)
}

// Where the ranks of a verb begin, which is not before this index.
fn start_from(ranks: &[u32], before: usize, verb: u16) -> usize
    requires rises { IsNonDecreasing ranks.now }
    requires verb { verb ≤ 256 }
    requires before { IsBefore ranks.now verb before }
    ensures start { IsStart ranks.now verb result }
    ensures within { result ≤ length ranks.now }
{
    // The least rank of the verb; for 256 it is past all ranks, and needs more than four bytes.
    let least = verb as u64 * 16777216;
    let mut at = before;
    while at < ranks.len() && (ranks[at] as u64) < least {
        at += 1;
    }
    at
}

// Where the ranks of each verb begin, and where those of the last one end.
fn starts_of(alloc: Global, ranks: &[u32]) -> Result<Vec<u16>, AllocError>
    requires rises { IsNonDecreasing ranks.now }
    requires few { length ranks.now ≤ ENTRY_LIMIT }
    ensures starts { IfOk result (λ v. AreStarts ranks.now v.items) }
{
    let mut starts = Vec::with_capacity(alloc, VERB_COUNT as usize + 1)?;
    let mut start = 0;
    for verb in 0..=VERB_COUNT {
        start = start_from(ranks, start, verb);
        starts.push(start as u16)?;
    }
    Ok(starts)
}

// The ranks with this verb.
fn run_of<'a>(ranks: &'a [u32], starts: &[u16], verb: u8) -> &'a [u32]
    requires rises { IsNonDecreasing ranks.now }
    requires starts { AreStarts ranks.now starts.now }
    ensures run { IsRun ranks.now verb result.now }
{
    let verb = verb as usize;
    let start = starts[verb] as usize;
    let end = starts[verb + 1] as usize;
    &ranks[start..end]
}

// For each entry up to the last that matches any verb and any noun: which of these comes next, from it on.
fn next_any_of(alloc: Global, ranks: &[u32]) -> Result<Vec<u16>, AllocError>
    requires rises { IsNonDecreasing ranks.now }
    ensures next { IfOk result (λ v. IsNextAny ranks.now v.items) }
{
    let least = rank_of(NO_WORD, NO_WORD, 0);
    // Of the entries that match any noun too, the last rank has the greatest, so the list needs no more room than this.
    let room = match ranks.last() {
        Some(last) => (*last % 65536) as usize + 1,
        None => 0,
    };
    let mut next = Vec::with_capacity(alloc, room)?;
    for rank in ranks {
        // No noun is greater than NO_WORD, so these match any noun. Each comes next from the one before it on.
        if *rank >= least {
            let entry = (*rank % 65536) as u16;
            next.resize(entry as usize + 1, entry)?;
        }
    }
    Ok(next)
}

/// The entries that begin at these offsets, in order.
pub fn order_of(alloc: Global, bytes: &[u8], offsets: &[u32]) -> Result<Order, AllocError>
    requires few { length offsets.now ≤ ENTRY_LIMIT }
    ensures order { IfOk result (λ order. IsOrder bytes.now offsets.now order) }
{
    let ranks = sorted_ranks(alloc, bytes, offsets)?;
    let starts = starts_of(alloc, &ranks)?;
    let next_any = next_any_of(alloc, run_of(&ranks, &starts, NO_WORD))?;
    Ok(Order {
        ranks,
        starts,
        next_any,
    })
}

// The index of the first rank that isn't below this one.
fn index_of_rank(run: &[u32], least: u32) -> usize
    requires rises { IsNonDecreasing run.now }
    ensures parts { IsPartitionPoint (λ r. nat_lt r least ≡ true) (λ r. nat_lt r least ≡ false) run.now result }
{
    run.partition_point(
        |rank: &u32| -> bool
            ensures value { result ≡ nat_lt rank.now least }
        { *rank < least },
    )
}

// The least entry not below `from` that has this verb and this noun, found by a search.
fn search_with(run: &[u32], verb: u8, noun: u8, from: u16) -> Option<u16>
    requires rises { IsNonDecreasing run.now }
    ensures least { IsLeast (IsMatch run.now (is_pair verb noun) from) result }
{
    let least = rank_of(verb, noun, from);
    let at = index_of_rank(run, least);
    match run.get(at) {
        Some(rank) if *rank / 65536 == least / 65536 => Some((*rank % 65536) as u16),
        _ => None,
    }
}

// The least entry not below `from` that has this verb and this noun. Where the first rank is above them no search is
// needed: so it is with most nouns of sentences.
fn first_with(run: &[u32], verb: u8, noun: u8, from: u16) -> Option<u16>
    requires rises { IsNonDecreasing run.now }
    ensures least { IsLeast (IsMatch run.now (is_pair verb noun) from) result }
{
    let first = run.first()?;
    if rank_of(verb, noun, u16::MAX) < *first {
        return None;
    }
    search_with(run, verb, noun, from)
}

// The lower of two numbers, or the one that is there.
fn lower(first: Option<u16>, second: Option<u16>) -> Option<u16>
    ensures value { result ≡ lower first second }
{
    match (first, second) {
        (None, other) => other,
        (Some(one), None) => Some(one),
        (Some(one), Some(other)) => Some(one.min(other)),
    }
}

// The least entry not below `from` that has this verb in the index, and whose noun matches. Where the sentence has no
// noun only entries for any noun match, so one search is enough.
fn first_for(order: &Order, verb: u8, noun: u8, from: u16) -> Option<u16>
    requires sorted { IsSorted order.now }
    ensures least { IsLeast (IsMatch order.now.ranks.items (λ v n. (v == verb) && is_indexed_for n noun) from) result }
{
    let run = run_of(&order.ranks, &order.starts, verb);
    let none = first_with(run, verb, NO_WORD, from);
    if noun == NO_WORD {
        return none;
    }
    let same = first_with(run, verb, noun, from);
    lower(none, same)
}

// The least entry not below `from` that matches any verb and any noun.
fn any_from(order: &Order, from: u16) -> Option<u16>
    ensures value { result ≡ slice_get order.now.next_any.items from }
{
    order.next_any.get(from as usize).copied()
}

// The least entry not below `from` that matches any verb, and whose noun matches. No search is needed for one that
// matches any noun too, as most do that come next in games.
fn first_for_any(order: &Order, noun: u8, from: u16) -> Option<u16>
    requires sorted { IsSorted order.now }
    ensures least { IsLeast
        (IsMatch order.now.ranks.items (λ v n. (v == NO_WORD) && is_indexed_for n noun) from) result }
{
    let none = any_from(order, from);
    let run = run_of(&order.ranks, &order.starts, NO_WORD);
    let same = first_with(run, NO_WORD, noun, from);
    lower(none, same)
}

/// The least entry not below `from` that matches this verb and noun: the lower of those found for any verb and for the
/// verb itself.
pub fn next_in(order: &Order, from: u16, verb: u8, noun: u8) -> Option<u16>
    requires sorted { IsSorted order.now }
    ensures least { IsLeast (IsMatch order.now.ranks.items (is_match verb noun) from) result }
{
    let none = first_for_any(order, noun, from);
    let same = first_for(order, verb, noun, from);
    lower(none, same)
}
