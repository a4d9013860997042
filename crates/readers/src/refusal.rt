// Why an input is refused. Contracts, and callers in C, see the number.
ghost use Rattle.std.specs.Prelude.{◌≡◌};

use std::fmt::{Display, Error, Formatter, Write};
use std::marker::Model;

// What was met, each with its number.
#[derive(Clone, Copy)]
pub enum Cause {
    // 1: the header is cut short, or its length goes past the section.
    ShortHeader,
    // 2: a value of the header is outside the domain.
    OutsideDomain,
    // 3: the abbreviations can't be read.
    Abbreviations,
    // 4: an entry can't be read.
    Entry,
    // 5: a list or an expression can't be read.
    ListOrExpression,
    // 6: the address table has a byte above 1 at an index that is asked.
    AddressFlag,
    // 7: a reference is into the whole section.
    AbsoluteReference,
    // 8: a reference's target is not kept.
    TargetNotKept,
    // 9: a value doesn't fit its width.
    TooWide,
    // 10: there are more entries than the tables hold.
    EntryTableFull,
    // 11: there are more references than the tables hold.
    ReferenceTableFull,
    // 12: an index list is too short.
    IndexListShort,
    // 13: the map is too short.
    MapShort,
    // 14: the output is too short.
    OutputShort,
    // 15: a number doesn't fit the bytes that it is padded to.
    PaddedWidth,
    // 16: parents, references, roots and marks that are no graph of entries.
    Graph,
    // 17: the address table, which is not empty, ends before an index that is asked.
    AddressTableShort,
    // 19: a treatment is neither 1 nor 2, or there is not one for each tag.
    Treatment,
    // 20: a tag is not above the one before it.
    TagOrder,
}

#[derive(Clone, Copy)]
pub struct Refusal(pub Cause);

impl Model for Refusal {
    ghost use Rattle.std.specs.Prelude.{ℕ};
    ghost use mathlib.Core.Path.{ap};
    ghost use Rattle.readers.specs.RefusalNumber.{number_of, cause_of, cause_of-number_of};

    ghost Value = { ℕ };

    ghost view = { λ r. number_of r.0 };

    ghost inverse = { λ n. record { 0 = cause_of n } };

    ghost inverse_ok = { λ a h. ap (λ c. record { 0 = c }) (cause_of-number_of a.0) };
}

impl Refusal {
    pub fn number(self) -> u8
        ensures { result ≡ self }
    {
        match self.0 {
            Cause::ShortHeader => 1,
            Cause::OutsideDomain => 2,
            Cause::Abbreviations => 3,
            Cause::Entry => 4,
            Cause::ListOrExpression => 5,
            Cause::AddressFlag => 6,
            Cause::AbsoluteReference => 7,
            Cause::TargetNotKept => 8,
            Cause::TooWide => 9,
            Cause::EntryTableFull => 10,
            Cause::ReferenceTableFull => 11,
            Cause::IndexListShort => 12,
            Cause::MapShort => 13,
            Cause::OutputShort => 14,
            Cause::PaddedWidth => 15,
            Cause::Graph => 16,
            Cause::AddressTableShort => 17,
            Cause::Treatment => 19,
            Cause::TagOrder => 20,
        }
    }
}

impl Display for Refusal {
    ghost use Rattle.std.specs.Prelude.{Some};
    ghost use Rattle.std.specs.Fmt.{decimal};

    ghost output = { λ n. Some (decimal n) };

    fn fmt<W: Write>(&self, f: &mut Formatter<W>) -> Result<(), Error> {
        write!(f, "{}", self.number())
    }
}
