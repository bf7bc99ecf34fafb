// A game read in place, in the bytes of its image.

ghost use Rattle.std.specs.Prelude.{◌≡◌, ◌<◌, [], Some, None, drop, slice_get, IfOk, OnOk, IfSome, OnSome, IfNone};
ghost use Rattle.paw_base.specs.declared.limits.TheConstants.{ENTRY_LIMIT};
ghost use Rattle.std.specs.Option.{option_copied, option_map, unwrap_or};
ghost use Rattle.paw_game.specs.Game.{GameLists};
ghost use Rattle.paw_game.specs.Image.{entry_image};
ghost use Rattle.paw_game.specs.Tables.{entry_at, head_at, is_for};
ghost use Rattle.paw_game.specs.inner.Tables.{match_at};
ghost use Rattle.paw_image.specs.Damage.{bad};
ghost use Rattle.paw_image.specs.Images.{IsImage};
ghost use Rattle.paw_image.specs.inner.Images.{IfDamaged};
ghost use Rattle.paw_image.specs.inner.Offsets.{entries_of};
ghost use Rattle.paw_image.specs.inner.Milestones.{EntryMilestones, milestones_of};
ghost use Rattle.paw_image.specs.inner.Views.{game_read, rows_begin, span_at};
ghost use Rattle.paw_image.specs.inner.Views.{AreLeft, CondactsStand, CursorStands, EntryStands, HeadCounts};

use crate::at_offset::{condact_at, condacts_in, entry_in, exit_at, facts_in, head_in, text_in};
use crate::damage::pass_whole;
use crate::milestones::Milestones;
use crate::offsets::{Offsets, TableIndex};
use crate::order::next_in;
use crate::refusal::ImageRefusal;
use crate::word_index::WordIndex;
use paw_base::limits::{IMAGE_LIMIT, WORD_LENGTH};
use paw_base::parts::{Condact, Counts, ObjectFacts};
use paw_base::words::NO_WORD;
use paw_game::cursor::CondactCursor;
use paw_game::lookup::is_for;
use paw_game::parts::GamePart;
use paw_game::tables::Tables;
use std::alloc::Global;
use std::marker::Model;

/// A valid game in the bytes of its image: texts and entries are lent out of them. It keeps the words by their first
/// letters, where each text, the exits of each location and each entry begin, and the entries of each table in order of
/// verb and noun, with milestones in their condacts. Contracts see the bytes.
#[derive(Drop)]
pub struct View<'a> {
    bytes: &'a [u8],
    counts: Counts,
    words: WordIndex,
    offsets: Offsets,
}

impl<'a> Model for View<'a> {
    ghost use Rattle.paw_base.specs.Bytes.{Bytes};
    ghost use Rattle.paw_image.specs.inner.Views.{IsIndex};

    ghost Value = { Bytes };

    ghost view = { λ v. v.bytes.now };

    ghost invariant = { λ v. IsIndex v.bytes.now v.counts v.words v.offsets };
}

// Where a row of this number begins.
fn offset_in(offsets: &[u32], number: usize) -> Option<u32>
    ensures value { result ≡ slice_get offsets.now number }
{
    offsets.get(number).copied()
}

// The index of a table.
fn index_of(tables: &[TableIndex], table: u8) -> Option<&TableIndex>
    ensures value { option_copied result ≡ slice_get tables.now table }
{
    tables.get(table as usize)
}

// Whether an entry's word matches this one. Whether it is no word is asked first, because most entries that are read
// match any word in this way.
fn matches(word: u8, flag: u8) -> bool
    ensures value { result ≡ is_for word flag }
{
    word == NO_WORD || is_for(word, flag)
}

// Where an entry begins.
fn entry_offset(tables: &[TableIndex], table: u8, entry: u16) -> Option<u32>
    ensures value { result ≡ slice_get (unwrap_or (slice_get (entries_of tables.now) table) []) entry }
{
    let index = tables.get(table as usize)?;
    index.entries.get(entry as usize).copied()
}

impl<'a> View<'a> {
    /// The game whose image the bytes are, read in place.
    ///
    /// # Errors
    /// As `decode`: Damaged exactly where the bytes aren't the image of a valid game, or more than 4,194,304; the
    /// offset is that of the first field, in order, that breaks its rule or isn't all there, and 4 where no field does,
    /// but the version is 2 and no condact is indirect. Memory only where there is none.
    pub fn new(alloc: Global, bytes: &'a [u8]) -> Result<View<'a>, ImageRefusal>
        ensures bytes { IfOk result (λ view. view ≡ bytes.now) }
        ensures found { OnOk result (IsImage bytes.now (game_read bytes.now)) }
        ensures damaged { IfDamaged result (λ _. (g : GameLists) → ¬ IsImage bytes.now g) }
        ensures at { IfDamaged result (λ at. bad bytes.now ≡ Some at) }
    {
        if bytes.len() > IMAGE_LIMIT {
            let at = IMAGE_LIMIT as u64;
            return Err(ImageRefusal::Damaged { at });
        }
        match pass_whole(alloc, bytes) {
            Ok(passed) => {
                let (front, offsets) = (passed.front, passed.offsets);
                let counts = front.counts;
                let words = WordIndex::new(alloc, front.words)?;
                Ok(View {
                    bytes,
                    counts,
                    words,
                    offsets,
                })
            }
            Err(refusal) => Err(refusal),
        }
    }

    /// The bytes of the image.
    pub fn bytes(&self) -> &'a [u8]
        ensures value { result.now ≡ self.now }
        ensures image { IsImage self.now (game_read self.now) }
    {
        self.bytes
    }

    // Where a row begins of a part that has texts.
    fn offset(&self, part: GamePart, number: u8) -> Option<u32>
        ensures value { result ≡ slice_get (rows_begin (game_read self.now) part) number }
    {
        let offsets = &self.offsets;
        let number = number as usize;
        match part {
            GamePart::System => offsets.system.get(number).copied(),
            GamePart::Messages => offsets.messages.get(number).copied(),
            GamePart::Objects => offsets.objects.get(number).copied(),
            GamePart::Locations => offsets.locations.get(number).copied(),
            GamePart::Words | GamePart::Exits | GamePart::Tables => None,
        }
    }

    /// The offsets of the bytes between which a text stands; None exactly where there is no such text.
    pub fn span(&self, part: GamePart, number: u8) -> Option<(usize, usize)>
        ensures value { result ≡ span_at (game_read self.now) part number }
    {
        let offset = self.offset(part, number)?;
        let text = text_in(self.bytes, offset);
        let from = offset as usize + 2;
        Some((from, from + text.len()))
    }

    // Where an entry begins, and the milestones of its table.
    fn marked_entry(&self, table: u8, entry: u16) -> Option<(u32, &Milestones)>
        ensures milestones { IfSome result (λ x. EntryMilestones (milestones_of x.1.now entry) (drop x.0 self.now)) }
        ensures stands { IfSome result (λ x. EntryStands self.now table entry x.0) }
        ensures count { IfSome result (λ x. HeadCounts self.now table entry x.0) }
        ensures none { IfNone result (entry_at (game_read self.now) table entry ≡ None) }
    {
        let index = index_of(&self.offsets.tables, table)?;
        let offset = offset_in(&index.entries, entry as usize)?;
        Some((offset, &index.milestones))
    }

    // An entry's verb and noun, and the cursor at its first condact.
    fn start_of(&self, table: u8, entry: u16) -> Option<((u8, u8), CondactCursor)>
        ensures head { option_map (λ x. x.0) result ≡ head_at (game_read self.now) table entry }
        ensures stands { IfSome result (λ x. CursorStands self.now x.1) }
        ensures table { IfSome result (λ x. x.1.table ≡ table) }
        ensures entry { IfSome result (λ x. x.1.entry ≡ entry) }
        ensures start { IfSome result (λ x. x.1.at ≡ 0) }
        ensures small { OnSome result (entry < ENTRY_LIMIT) }
    {
        let offset = entry_offset(&self.offsets.tables, table, entry)?;
        let (head, left) = head_in(self.bytes, offset);
        let cursor = CondactCursor {
            table,
            entry,
            at: 0,
            left,
            offset: offset as usize + 3,
        };
        Some((head, cursor))
    }

    // The least entry not below `from` that matches this verb and noun, by the order of the entries.
    fn search(&self, table: u8, from: u16, verb: u8, noun: u8) -> Option<u16>
        ensures value { result ≡ match_at (game_read self.now) table from verb noun }
    {
        let index = index_of(&self.offsets.tables, table)?;
        next_in(&index.order, from, verb, noun)
    }

    // How many condacts an entry has from one of them on, and where that one begins; none where there is no entry.
    fn condacts_from(&self, table: u8, entry: u16, at: u8) -> (u8, usize)
        ensures value { CondactsStand self.now table entry at result.0 result.1 }
        ensures there { AreLeft self.now table entry at result.0 }
    {
        match self.marked_entry(table, entry) {
            Some((offset, milestones)) => condacts_in(self.bytes, offset, milestones, entry, at),
            None => (0, 0),
        }
    }

    /// The bytes of an entry, its verb first; None exactly where there is no such entry.
    pub fn entry(&self, table: u8, number: u16) -> Option<&'a [u8]>
        ensures value { option_copied result ≡ option_map entry_image (entry_at (game_read self.now) table number) }
    {
        let offset = entry_offset(&self.offsets.tables, table, number)?;
        entry_in(self.bytes, offset)
    }
}

impl<'a> Tables for View<'a> {
    ghost game = { game_read };

    ghost stands = { CursorStands };

    fn counts(&self) -> Counts {
        self.counts
    }

    fn facts(&self, object: u8) -> Option<ObjectFacts> {
        let offset = self.offset(GamePart::Objects, object)?;
        facts_in(self.bytes, offset)
    }

    fn text(&self, part: GamePart, number: u8) -> Option<&[u8]> {
        let offset = self.offset(part, number)?;
        Some(text_in(self.bytes, offset))
    }

    fn exit(&self, location: u8, verb: u8) -> Option<u8> {
        let offset = offset_in(&self.offsets.exits, location as usize)?;
        exit_at(self.bytes, offset, verb)
    }

    fn head(&self, table: u8, entry: u16) -> Option<(u8, u8)> {
        let (head, _) = self.start_of(table, entry)?;
        Some(head)
    }

    fn condact(&self, table: u8, entry: u16, at: u8) -> Option<Condact> {
        let mut cursor = self.cursor(table, entry, at);
        self.next_condact(&mut cursor)
    }

    fn cursor(&self, table: u8, entry: u16, at: u8) -> CondactCursor {
        let (left, offset) = self.condacts_from(table, entry, at);
        CondactCursor {
            table,
            entry,
            at,
            left,
            offset,
        }
    }

    fn next_condact(&self, cursor: &mut CondactCursor) -> Option<Condact> {
        if cursor.left == 0 {
            return None;
        }
        let (condact, next) = condact_at(self.bytes, cursor.offset);
        cursor.at += 1;
        cursor.left -= 1;
        cursor.offset = next;
        Some(condact)
    }

    fn next_match(&self, table: u8, from: u16, verb: u8, noun: u8) -> Option<u16> {
        let cursor = self.match_cursor(table, from, verb, noun)?;
        Some(cursor.entry)
    }

    fn match_cursor(&self, table: u8, from: u16, verb: u8, noun: u8) -> Option<CondactCursor> {
        // Most often the entry `from` itself matches, and no search is needed; where there is no such entry, none
        // comes after it.
        let ((own_verb, own_noun), own) = self.start_of(table, from)?;
        if matches(own_verb, verb) && matches(own_noun, noun) {
            return Some(own);
        }
        let entry = self.search(table, from, verb, noun)?;
        let (_, cursor) = self.start_of(table, entry)?;
        Some(cursor)
    }

    fn word(&self, letters: &[u8; WORD_LENGTH]) -> Option<(u8, u8)> {
        let word = self.words.find(letters)?;
        Some((word.value, word.class))
    }
}
