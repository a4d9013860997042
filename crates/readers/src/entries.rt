// The entries and terminators of a unit, one after the other (DWARF 5, 7.5.2 and 2.3), and how they nest.
ghost use Rattle.std.specs.Prelude.{◌≡◌, []};
ghost use Rattle.readers.specs.Entries.{values_at, step_at, entry_head_at};
ghost use Rattle.readers.specs.Abbreviations.{find_at, find_head};
ghost use Rattle.readers.specs.Nesting.{nesting_of, nesting_opened, nesting_closed};

use crate::abbreviations::{Declaration, SpecStep, find_declaration};
use crate::cursor::{Cursor, Encoding};
use crate::offsets::{EntryIndex, NO_PARENT, UnitOffset};

// An entry: where it starts, its declaration, where the values of its attributes start, and the cursor past it.
#[derive(Clone, Copy)]
pub struct Entry {
    pub offset: UnitOffset,
    pub declaration: Declaration,
    pub values: Cursor,
    pub next: Cursor,
}

// One step through a unit. A terminator closes a list of children, or none.
#[derive(Clone, Copy)]
pub enum Step {
    Entry(Entry),
    Terminator(Cursor),
    End,
}

// The head of an entry: where it starts, its declaration, and where the values of its attributes start.
#[derive(Clone, Copy)]
pub struct EntryHead {
    pub offset: UnitOffset,
    pub declaration: Declaration,
    pub values: Cursor,
}

// One step through a unit that leaves the values of an entry unread.
#[derive(Clone, Copy)]
pub enum HeadStep {
    Entry(EntryHead),
    Terminator(Cursor),
    End,
}

// How deep the next entry or terminator stands, and the entry whose children are open; NO_PARENT where there is none.
#[derive(Clone, Copy)]
pub struct Nesting {
    pub depth: u64,
    pub parent: EntryIndex,
}

impl Cursor {
    // Past the values of the attributes whose specifications start at `specs`.
    pub fn past_values(
        self,
        unit: &[u8],
        abbreviations: &[u8],
        specs: Cursor,
        e: Encoding,
    ) -> Option<Cursor>
        ensures { result ≡ values_at e abbreviations.now specs.at unit.now self.at }
    {
        let mut c = self;
        let mut p = specs;
        loop {
            match p.attribute_spec(abbreviations)? {
                SpecStep::Attribute(a) => {
                    let next = a.next;
                    let past = c.past_attribute(unit, a.name, a.form, e)?;
                    c = past;
                    p = next;
                }
                SpecStep::Last(_) => {
                    return Some(c);
                }
            }
        }
    }

    // The head of the entry, or the terminator, at a place of a unit, by the abbreviations from an offset on and
    // their index. A code that is not declared is unreadable. With where its values end it is the step there
    // (`entry-headed` in proofs/Values.antt).
    pub fn entry_head(
        self,
        unit: &[u8],
        abbreviations: &[u8],
        from: u64,
        index: &[u64],
    ) -> Option<HeadStep>
        ensures { result
            ≡ entry_head_at (find_head abbreviations.now from index.now) unit.now self.at }
    {
        let at = self.at;
        if at >= unit.len() {
            return Some(HeadStep::End);
        }
        let (code, values) = self.uleb(unit)?;
        if code == 0 {
            return Some(HeadStep::Terminator(values));
        }
        let declaration = find_declaration(abbreviations, from, index, code)?;
        Some(HeadStep::Entry(EntryHead {
            offset: UnitOffset(at as u64),
            declaration,
            values,
        }))
    }

    // The entry or terminator at a place of a unit, by the abbreviations from an offset on and their index.
    pub fn step(
        self,
        unit: &[u8],
        abbreviations: &[u8],
        from: u64,
        index: &[u64],
        e: Encoding,
    ) -> Option<Step>
        ensures { let declared = abbreviations.now in
            result ≡ step_at e declared (find_at declared from index.now) unit.now self.at }
    {
        match self.entry_head(unit, abbreviations, from, index)? {
            HeadStep::Entry(h) => {
                let offset = h.offset;
                let declaration = h.declaration;
                let values = h.values;
                let next = values.past_values(unit, abbreviations, declaration.attributes, e)?;
                Some(Step::Entry(Entry {
                    offset,
                    declaration,
                    values,
                    next,
                }))
            }
            HeadStep::Terminator(next) => Some(Step::Terminator(next)),
            HeadStep::End => Some(Step::End),
        }
    }
}

impl Nesting {
    // Outside every entry.
    pub fn outside() -> Nesting
        ensures { result ≡ nesting_of [] }
    {
        Nesting {
            depth: 0,
            parent: EntryIndex(NO_PARENT),
        }
    }

    // After an entry: its children are open, if it has any.
    pub fn after_entry(self, entry: EntryIndex, children: bool) -> Nesting
        ensures { result ≡ nesting_opened children entry.0 self }
    {
        if children && self.depth < u64::MAX {
            return Nesting {
                depth: self.depth + 1,
                parent: entry,
            };
        }
        self
    }

    // After a terminator: the open entry's own parent is open again. One that closes nothing changes nothing.
    pub fn after_terminator(self, parents: &[u64]) -> Nesting
        ensures { result ≡ nesting_closed parents.now self }
    {
        if self.depth == 0 {
            return self;
        }
        let parent = self.parent;
        let i = parent.0 as usize;
        Nesting {
            depth: self.depth - 1,
            parent: EntryIndex(parents.get(i).copied().unwrap_or(NO_PARENT)),
        }
    }
}
