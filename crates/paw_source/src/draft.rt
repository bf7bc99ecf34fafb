// What the lines that were read spell.

ghost use Rattle.std.specs.Prelude.{◌≡◌, ◌<◌, true, length, Err, IfOk};
ghost use Rattle.paw_read_error.specs.declared.read_error.ReadError.TheVariants.{Fault};
ghost use Rattle.paw_grammar.specs.inner.Condacts.{AreSmall};
ghost use Rattle.paw_read_error.specs.inner.Gives.{Gives};
ghost use Rattle.paw_grammar.specs.GrammarState.{game_of, nothing_yet};
ghost use Rattle.paw_grammar.specs.GrammarTexts.{is_in_text, text_limit};
ghost use Rattle.paw_grammar.specs.GrammarHeads.{con_header, header, header_of, item_in, new_exits, next_header};
ghost use Rattle.paw_grammar.specs.GrammarHeads.{new_text, plain_header, pro_header, slash_line};
ghost use Rattle.paw_grammar.specs.GrammarRows.{bounds_of, con_row, obj_row, pro_row, row_in};
ghost use Rattle.paw_grammar.specs.Spells.{text_added};
ghost use Rattle.paw_source.specs.inner.Drafts.{HasTable};

use crate::entries::{entry_row, more_row};
use crate::exits::{exit_row, fill};
use crate::objects::objects_of;
use crate::rows::{object_row, voc_row};
use crate::texts::{text_item, text_line};
use paw_base::fault::{NoRoom, SourceKind};
use paw_base::limits::{LOCATION_LIMIT, MESSAGE_LIMIT, OBJECT_LIMIT, SYSTEM_LIMIT, TABLE_LIMIT};
use paw_base::parts::ObjectFacts;
use paw_game::parts::{Exits, GameParts, Table, Text};
use paw_grammar::bounds::Bounds;
use paw_grammar::condacts::Scope;
use paw_grammar::numbers::byte_below;
use paw_grammar::refusal::LineError;
use paw_grammar::section::Section;
use paw_grammar::tokens::{Tokens, is_named};
use paw_grammar::vocabulary::Vocabulary;
use paw_read_error::read_error::ReadError;
use std::alloc::Global;
use std::marker::Model;

/// How many numbers a table may have.
const TABLE_NUMBERS: u16 = TABLE_LIMIT as u16;

/// What the lines that were read spell. Contracts see it as the grammar does.
#[derive(Drop)]
pub(crate) struct Draft {
    pub(crate) section: Section,
    words: Vocabulary,
    system: Vec<Text>,
    messages: Vec<Text>,
    names: Vec<Text>,
    locations: Vec<Text>,
    begun: bool,
    exits: Vec<Exits>,
    facts: Vec<ObjectFacts>,
    tables: Vec<Table>,
}

impl Model for Draft {
    ghost use Rattle.paw_grammar.specs.GrammarState.{Spelt};
    ghost use Rattle.paw_source.specs.inner.Drafts.{AreShort};

    ghost Value = { Spelt };

    ghost view = { λ d. record {
      section = d.section;
      words = d.words;
      system = d.system.items;
      messages = d.messages.items;
      names = d.names.items;
      locations = d.locations.items;
      begun = d.begun;
      exits = d.exits.items;
      facts = d.facts.items;
      tables = d.tables.items;
    } };

    ghost invariant = { λ d. AreShort d.section d.system.items d.messages.items d.names.items d.locations.items
        d.facts.items d.tables.items };
}

// A fault of a line.
fn fault(kind: SourceKind) -> Result<(), LineError>
    ensures value { result ≡ Err (Fault kind) }
{
    Err(ReadError::Fault(kind))
}

// The section whose header comes next.
fn next_section(section: Section) -> Section
    ensures value { result ≡ (next_header section).1 }
{
    match section {
        Section::Before => Section::Voc,
        Section::Voc => Section::Stx,
        Section::Stx => Section::Mtx,
        Section::Mtx => Section::Otx,
        Section::Otx => Section::Ltx,
        Section::Ltx => Section::Con,
        Section::Con => Section::Obj,
        Section::Obj | Section::Pro => Section::Pro,
    }
}

// The name of the header that comes next.
fn next_name(section: Section) -> &'static [u8]
    ensures value { result.now ≡ (next_header section).0 }
{
    match section {
        Section::Before => b"/VOC",
        Section::Voc => b"/STX",
        Section::Stx => b"/MTX",
        Section::Mtx => b"/OTX",
        Section::Otx => b"/LTX",
        Section::Ltx => b"/CON",
        Section::Con => b"/OBJ",
        Section::Obj | Section::Pro => b"/PRO",
    }
}

impl Draft {
    /// A draft of no lines.
    pub(crate) fn new(alloc: Global) -> Draft
        ensures value { result ≡ nothing_yet }
    {
        Draft {
            section: Section::Before,
            words: Vocabulary::new(alloc),
            system: Vec::new(alloc),
            messages: Vec::new(alloc),
            names: Vec::new(alloc),
            locations: Vec::new(alloc),
            begun: false,
            exits: Vec::new(alloc),
            facts: Vec::new(alloc),
            tables: Vec::new(alloc),
        }
    }

    /// How many tables have begun.
    pub(crate) fn tables(&self) -> usize
        ensures value { result ≡ length self.now.tables }
    {
        self.tables.len()
    }

    /// The game that the lines spell.
    pub(crate) fn into_parts(self, alloc: Global) -> Result<GameParts, NoRoom>
        ensures value { IfOk result (λ parts. parts ≡ game_of self) }
    {
        let mut exits = self.exits;
        fill(alloc, &mut exits, self.locations.len())?;
        Ok(GameParts {
            words: self.words.into_words(alloc)?,
            system: self.system,
            messages: self.messages,
            objects: objects_of(alloc, self.names, self.facts.as_slice())?,
            locations: self.locations,
            exits,
            tables: self.tables,
        })
    }

    // ---- lines of texts ----

    /// Whether a line that doesn't begin with `/` is a text line here, after an item of a section of texts.
    pub(crate) fn is_in_text(&self) -> bool
        ensures value { result ≡ is_in_text self.now }
    {
        match self.section {
            Section::Stx => !self.system.is_empty(),
            Section::Mtx => !self.messages.is_empty(),
            Section::Otx => !self.names.is_empty(),
            Section::Ltx => !self.locations.is_empty(),
            Section::Before | Section::Voc | Section::Con | Section::Obj | Section::Pro => false,
        }
    }

    /// Adds a text line.
    pub(crate) fn text(&mut self, line: &[u8]) -> Result<(), LineError>
        requires in_text { is_in_text self.old ≡ true }
        ensures gives { Gives (λ _. self.new) result (text_added self.old line.now) }
    {
        let begun = self.begun;
        self.begun = true;
        match self.section {
            Section::Stx => text_line(&mut self.system, begun, line),
            Section::Mtx => text_line(&mut self.messages, begun, line),
            Section::Otx => text_line(&mut self.names, begun, line),
            Section::Ltx => text_line(&mut self.locations, begun, line),
            Section::Before | Section::Voc | Section::Con | Section::Obj | Section::Pro => Ok(()),
        }
    }

    // ---- lines that begin with `/` ----

    /// Reads a line that begins with `/`, of which the first token was taken; `item` is its number, where `/` and a
    /// number are that token.
    pub(crate) fn slash(
        &mut self,
        alloc: Global,
        name: &[u8],
        item: Option<u32>,
        tokens: &mut Tokens,
    ) -> Result<(), LineError>
        ensures gives { Gives (λ _. self.new) result (slash_line self.old name.now item tokens.old) }
    {
        if let Some(number) = item {
            tokens.end_line()?;
            return self.item(alloc, number);
        }
        self.header(alloc, name, tokens)
    }

    // Begins the item of this number in the section that is open.
    fn item(&mut self, alloc: Global, number: u32) -> Result<(), LineError>
        ensures gives { Gives (λ _. self.new) result (item_in self.old.section self.old number) }
    {
        match self.section {
            Section::Stx | Section::Mtx | Section::Otx | Section::Ltx => {
                self.new_text(alloc, number)
            }
            Section::Con => self.new_exits(alloc, number),
            Section::Before | Section::Voc | Section::Obj | Section::Pro => {
                fault(SourceKind::Section)
            }
        }
    }

    // Begins the text of this number in the section that is open.
    fn new_text(&mut self, alloc: Global, number: u32) -> Result<(), LineError>
        requires texts { 0 < text_limit self.old.section }
        ensures gives { Gives (λ _. self.new) result (new_text self.old.section self.old number) }
    {
        self.begun = false;
        match self.section {
            Section::Stx => text_item(alloc, &mut self.system, SYSTEM_LIMIT, number),
            Section::Mtx => text_item(alloc, &mut self.messages, MESSAGE_LIMIT, number),
            Section::Otx => text_item(alloc, &mut self.names, OBJECT_LIMIT, number),
            Section::Ltx => text_item(alloc, &mut self.locations, LOCATION_LIMIT, number),
            Section::Before | Section::Voc | Section::Con | Section::Obj | Section::Pro => {
                unreachable!() // these sections have no texts
            }
        }
    }

    // Begins the exits of the location of this number; those passed over have none.
    fn new_exits(&mut self, alloc: Global, number: u32) -> Result<(), LineError>
        ensures gives { Gives (λ _. self.new) result (new_exits self.old number) }
    {
        let number = number as usize;
        if number < self.exits.len() || number >= self.locations.len() {
            return fault(SourceKind::Range);
        }
        fill(alloc, &mut self.exits, number + 1)?;
        Ok(())
    }

    // Reads a header, which has to be the next in order.
    fn header(&mut self, alloc: Global, name: &[u8], tokens: &mut Tokens) -> Result<(), LineError>
        ensures gives { Gives (λ _. self.new) result (header self.old name.now tokens.old) }
    {
        if !is_named(name, next_name(self.section)) {
            return fault(SourceKind::Section);
        }
        self.open(alloc, next_section(self.section), tokens)
    }

    // Opens the next section, by the tokens after the name of its header.
    fn open(&mut self, alloc: Global, next: Section, tokens: &mut Tokens) -> Result<(), LineError>
        ensures gives { Gives (λ _. self.new) result (header_of next self.old tokens.old) }
    {
        match next {
            Section::Before => fault(SourceKind::Section),
            Section::Voc => self.plain_header(Section::Voc, tokens),
            Section::Stx => self.plain_header(Section::Stx, tokens),
            Section::Mtx => self.plain_header(Section::Mtx, tokens),
            Section::Otx => self.plain_header(Section::Otx, tokens),
            Section::Ltx => self.plain_header(Section::Ltx, tokens),
            Section::Con => self.con_header(tokens),
            Section::Obj => self.plain_header(Section::Obj, tokens),
            Section::Pro => self.pro_header(alloc, tokens),
        }
    }

    // Opens a section whose header has no further token.
    fn plain_header(&mut self, section: Section, tokens: &mut Tokens) -> Result<(), LineError>
        requires table { HasTable section 0 }
        ensures gives { Gives (λ _. self.new) result (plain_header section self.old tokens.old) }
    {
        tokens.end_line()?;
        self.section = section;
        self.begun = false;
        Ok(())
    }

    // Opens the section of the exits, which needs a location.
    fn con_header(&mut self, tokens: &mut Tokens) -> Result<(), LineError>
        ensures gives { Gives (λ _. self.new) result (con_header self.old tokens.old) }
    {
        tokens.end_line()?;
        if self.locations.is_empty() {
            return fault(SourceKind::Missing);
        }
        self.section = Section::Con;
        self.begun = false;
        Ok(())
    }

    // Opens the next table, whose number the header has; the first one needs a row for each object.
    fn pro_header(&mut self, alloc: Global, tokens: &mut Tokens) -> Result<(), LineError>
        ensures gives { Gives (λ _. self.new) result (pro_header self.old tokens.old) }
    {
        let number = byte_below(tokens, TABLE_NUMBERS)?;
        if number as usize != self.tables.len() {
            return fault(SourceKind::Section);
        }
        tokens.end_line()?;
        if self.tables.is_empty() && self.facts.len() < self.names.len() {
            return fault(SourceKind::Missing);
        }
        self.tables.push(Table {
            rows: Vec::new(alloc),
        })?;
        self.section = Section::Pro;
        self.begun = false;
        Ok(())
    }

    // ---- rows ----

    /// Reads a line of tokens that doesn't begin with `/`. `blank` says whether it begins with a space or a tab,
    /// `tables` how many headers of tables the source has.
    pub(crate) fn row(
        &mut self,
        alloc: Global,
        tables: u32,
        blank: bool,
        tokens: &mut Tokens,
    ) -> Result<(), LineError>
        ensures gives { Gives (λ _. self.new) result (row_in self.old.section tables self.old blank tokens.old) }
    {
        match self.section {
            Section::Voc => voc_row(&mut self.words, tokens),
            Section::Con => self.con_row(tokens),
            Section::Obj => self.obj_row(tokens),
            Section::Pro => self.pro_row(alloc, tables, blank, tokens),
            Section::Before | Section::Stx | Section::Mtx | Section::Otx | Section::Ltx => {
                fault(SourceKind::Section)
            }
        }
    }

    // Reads a row of `/CON`: an exit of the location of the last item.
    fn con_row(&mut self, tokens: &mut Tokens) -> Result<(), LineError>
        ensures gives { Gives (λ _. self.new) result (con_row self.old tokens.old) }
    {
        if self.exits.is_empty() {
            return fault(SourceKind::Section);
        }
        let locations = self.locations.len() as u16;
        let last = self.exits.len() - 1;
        let exits = &mut self.exits[last];
        exit_row(&self.words, locations, exits, tokens)
    }

    // Reads a row of `/OBJ`: the facts of the next object.
    fn obj_row(&mut self, tokens: &mut Tokens) -> Result<(), LineError>
        ensures gives { Gives (λ _. self.new) result (obj_row self.old tokens.old) }
    {
        let locations = self.locations.len() as u16;
        let row = self.facts.len() as u16;
        let count = self.names.len() as u16;
        let facts = object_row(&self.words, locations, row, count, tokens)?;
        self.facts.push(facts)?;
        Ok(())
    }

    // How many rows of each sort parameters may name.
    fn bounds(&self, tables: u32) -> Bounds
        ensures value { result ≡ bounds_of tables self.now }
        ensures small { AreSmall result }
    {
        Bounds {
            system: self.system.len() as u16,
            messages: self.messages.len() as u16,
            objects: self.names.len() as u16,
            locations: self.locations.len() as u16,
            tables,
        }
    }

    // Reads a row of the last table: an entry, or more condacts of its last entry.
    fn pro_row(
        &mut self,
        alloc: Global,
        tables: u32,
        more: bool,
        tokens: &mut Tokens,
    ) -> Result<(), LineError>
        requires some { 0 < length self.old.tables }
        ensures gives { Gives (λ _. self.new) result (pro_row tables self.old more tokens.old) }
    {
        let bounds = self.bounds(tables);
        let last = self.tables.len() - 1;
        let table = &mut self.tables[last];
        let scope = Scope {
            bounds,
            words: &self.words,
        };
        if more {
            more_row(&scope, table, tokens)
        } else {
            entry_row(alloc, &scope, table, tokens)
        }
    }
}
