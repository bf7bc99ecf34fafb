// The rules of objects, exits and tables.

ghost use Rattle.std.specs.Prelude.{◌≡◌, ◌&&◌, ◌==◌, ◌<◌, ◌^◌, IfSome, length, nat_lt};
ghost use Rattle.std.specs.List.{list_all, list_any};
ghost use Rattle.paw_game.specs.inner.Fault.{exits_fault, first_bad, objects_fault, tables_fault};
ghost use Rattle.paw_game.specs.Valid.{are_exits, facts_are_valid, is_condact, is_entry, exits_are_valid, is_object};
ghost use Rattle.paw_game.specs.Valid.{is_table, is_verb_value};

use crate::parts::{Entry, Exit, Exits, GameParts, ObjectRow, Table};
use crate::rows::row_fault;
use crate::rules::{Lengths, Rules};
use crate::texts::is_text;
use crate::values::is_wildcard;
use paw_base::limits::{
    CONDACT_LIMIT, ENTRY_LIMIT, EXIT_LIMIT, OBJECT_LIMIT, TABLE_LEAST, TABLE_LIMIT, WEIGHT_LIMIT,
};
use paw_base::parts::{Condact, ObjectFacts};
use paw_base::rows::condact_row;
use std::marker::Model;

/// A game's lists, and the rules of bytes that name their rows. Contracts see the lists.
#[derive(Drop)]
pub(crate) struct Inspector<'a> {
    parts: &'a GameParts,
    rules: Rules<'a>,
}

impl<'a> Model for Inspector<'a> {
    ghost use Rattle.std.specs.Prelude.{◌≡◌};
    ghost use Rattle.paw_game.specs.Game.{GameLists, counts_of};

    ghost Value = { GameLists };

    ghost view = { λ i. i.parts.now };

    ghost invariant = { λ i. i.rules ≡ record { counts = counts_of i.parts.now; words = i.parts.now.words } };
}

impl<'a> Inspector<'a> {
    pub(crate) fn new(parts: &'a GameParts) -> Inspector<'a>
        ensures value { result ≡ parts.now }
    {
        let rules = Rules::new(Lengths::of(parts), parts.words.as_slice());
        Inspector { parts, rules }
    }

    fn facts_are_valid(&self, facts: &ObjectFacts) -> bool
        ensures value { result ≡ facts_are_valid self.now.words (length self.now.locations) facts.now }
    {
        self.rules.is_noun_or_none(facts.noun)
            && self.rules.is_adjective_or_none(facts.adjective)
            && self.rules.is_place(facts.start)
            && facts.weight <= WEIGHT_LIMIT
    }

    /// The row to name of the objects, where one breaks a rule or there are too many.
    #[tactic(auto, unfolding(crate::specs::inner::Fault::objects_fault))]
    pub(crate) fn objects_fault(&self) -> Option<u32>
        ensures value { result ≡ objects_fault self.now.words (length self.now.locations) self.now.objects }
    {
        let parts = self.parts;
        row_fault(0, OBJECT_LIMIT, parts.objects.len(), self.bad_object())
    }

    // The first object that breaks a rule.
    fn bad_object(&self) -> Option<usize>
        ensures value { result ≡ first_bad (is_object self.now.words (length self.now.locations)) self.now.objects }
        ensures within { IfSome result (λ row. row < length self.now.objects) }
    {
        let parts = self.parts;
        parts
            .objects
            .iter()
            .position(|object| !self.is_object(object))
    }

    fn is_object(&self, object: &ObjectRow) -> bool
        ensures value { result ≡ is_object self.now.words (length self.now.locations) object.now }
    {
        is_text(&object.text) && self.facts_are_valid(&object.facts)
    }

    /// The row to name of the exits, where one breaks a rule or there are too many or too few.
    #[tactic(auto, unfolding(crate::specs::inner::Fault::exits_fault))]
    pub(crate) fn exits_fault(&self) -> Option<u32>
        requires locations { length self.now.locations < 2 ^ 32 }
        ensures value { result ≡ exits_fault self.now.words (length self.now.locations) self.now.exits }
    {
        let parts = self.parts;
        let locations = parts.locations.len();
        row_fault(locations, locations, parts.exits.len(), self.bad_exits())
    }

    // The first location whose exits break a rule.
    fn bad_exits(&self) -> Option<usize>
        ensures value { result ≡ first_bad (exits_are_valid self.now.words (length self.now.locations)) self.now.exits }
        ensures within { IfSome result (λ row. row < length self.now.exits) }
    {
        let parts = self.parts;
        parts
            .exits
            .iter()
            .position(|exits| !self.exits_are_valid(exits))
    }

    fn exits_are_valid(&self, exits: &Exits) -> bool
        ensures value { result ≡ exits_are_valid self.now.words (length self.now.locations) exits.now }
    {
        exits.rows.len() <= EXIT_LIMIT && self.are_exits(exits.rows.as_slice())
    }

    fn are_exits(&self, exits: &[Exit]) -> bool
        ensures value { result ≡ are_exits self.now.words (length self.now.locations) exits.now }
    {
        for (row, exit) in exits.iter().enumerate() {
            let later = &exits[row + 1..];
            if !self.is_exit(exit) || has_verb(later, exit.verb) {
                return false;
            }
        }
        true
    }

    fn is_exit(&self, exit: &Exit) -> bool
        ensures value { result ≡
            (is_verb_value self.now.words exit.now.verb && nat_lt exit.now.to (length self.now.locations)) }
    {
        self.rules.is_verb_value(exit.verb) && self.rules.is_location(exit.to)
    }

    /// The row to name of the tables, where one breaks a rule or there are too many or too few.
    #[tactic(auto, unfolding(crate::specs::inner::Fault::tables_fault))]
    pub(crate) fn tables_fault(&self) -> Option<u32>
        ensures value { result ≡ tables_fault self.now }
    {
        let parts = self.parts;
        row_fault(
            TABLE_LEAST,
            TABLE_LIMIT,
            parts.tables.len(),
            self.bad_table(),
        )
    }

    // The first table that breaks a rule.
    fn bad_table(&self) -> Option<usize>
        ensures value { result ≡ first_bad (is_table self.now) self.now.tables }
        ensures within { IfSome result (λ row. row < length self.now.tables) }
    {
        let parts = self.parts;
        parts.tables.iter().position(|table| !self.is_table(table))
    }

    fn is_table(&self, table: &Table) -> bool
        ensures value { result ≡ is_table self.now table.now }
    {
        table.rows.len() <= ENTRY_LIMIT && self.are_entries(table.rows.as_slice())
    }

    fn are_entries(&self, entries: &[Entry]) -> bool
        ensures value { result ≡ list_all (is_entry self.now) entries.now }
    {
        entries.iter().all(|entry| self.is_entry(entry))
    }

    fn is_entry(&self, entry: &Entry) -> bool
        ensures value { result ≡ is_entry self.now entry.now }
    {
        let condacts = &entry.condacts;
        (is_wildcard(entry.verb) || self.rules.is_verb_value(entry.verb))
            && (is_wildcard(entry.noun) || self.rules.is_noun(entry.noun))
            && condacts.rows.len() <= CONDACT_LIMIT
            && self.are_condacts(condacts.rows.as_slice())
    }

    fn are_condacts(&self, condacts: &[Condact]) -> bool
        ensures value { result ≡ list_all (is_condact self.now) condacts.now }
    {
        condacts.iter().all(|condact| self.is_condact(*condact))
    }

    fn is_condact(&self, condact: Condact) -> bool
        ensures value { result ≡ is_condact self.now condact }
    {
        match condact_row(condact.code) {
            Some(row) => self.rules.is_parameter(row.first, condact.a)
                && self.rules.is_parameter(row.second, condact.b),
            None => false,
        }
    }
}

// Whether one of the exits has this verb.
fn has_verb(exits: &[Exit], verb: u8) -> bool
    ensures value { result ≡ list_any (λ x. x.verb == verb) exits.now }
{
    exits.iter().any(|exit| exit.verb == verb)
}
