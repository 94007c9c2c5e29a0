// The numbers by which `judge` goes; words have them too.
ghost use Rattle.std.specs.Prelude.{◌≡◌, Some};
ghost use Rattle.parser_rules.specs.Numbers.{number_of_sort, awaited_number, awaited_line};

use crate::ruling::{Awaited, Section, Sort};

pub mod awaited {
    pub const NOTHING: usize = 0;

    pub const VALUE: usize = 1;

    pub const MULTILINE: usize = 2;
}

// MISSING is that of no section.
pub mod sort {
    pub const UNSET: usize = 0;

    pub const MAP: usize = 1;

    pub const LIST: usize = 2;

    pub const MISSING: usize = 3;
}

impl From<Sort> for usize {
    ghost from_gives = { λ s n. n ≡ number_of_sort (Some s) };

    fn from(sort: Sort) -> usize {
        match sort {
            Sort::Map => sort::MAP,
            Sort::List => sort::LIST,
        }
    }
}

impl Section {
    pub fn sort_number(self) -> usize
        ensures { result ≡ number_of_sort self.sort }
    {
        self.sort.map_or(sort::UNSET, |sort| usize::from(sort))
    }
}

impl Awaited {
    pub fn number(self) -> usize
        ensures { result ≡ awaited_number self }
    {
        match self {
            Awaited::Nothing => awaited::NOTHING,
            Awaited::Value(_) => awaited::VALUE,
            Awaited::Multiline(_) => awaited::MULTILINE,
        }
    }

    // The line of the key or item that asks for it; 0 where nothing is awaited.
    pub fn line(self) -> usize
        ensures { result ≡ awaited_line self }
    {
        match self {
            Awaited::Nothing => 0,
            Awaited::Value(line) | Awaited::Multiline(line) => line,
        }
    }
}
