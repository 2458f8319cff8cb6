//! How many records of a rank may wait to be judged.

ghost use Rattle.std.specs.Prelude.{◌≡◌, ◌<◌, ◌≤◌};
ghost use Rattle.cli.specs.Capacities.{capacity_in};

use crate::number::number_within;
use std::marker::Model;

/// The fewest records that may be asked for.
pub const LEAST: u16 = 1;

/// The most records that may be asked for.
pub const MOST: u16 = 1024;

/// How many records of a rank may wait to be judged, [`LEAST`] to [`MOST`]. Contracts see the number.
#[derive(Clone, Copy, Debug, PartialEq, Eq)]
pub struct Capacity {
    records: u16,
}

impl Model for Capacity {
    ghost use Rattle.std.specs.Prelude.{ℕ, ◌≤◌};

    ghost Value = { ℕ };

    ghost view = { λ c. c.records };

    ghost invariant = { λ c. (1 ≤ c.records) × (c.records ≤ 1024) };

    ghost inverse = { λ n. record { records = n } };
}

impl Capacity {
    /// The number that a text spells, or None where that is no such number.
    pub fn read(text: &str) -> Option<Capacity>
        ensures { result ≡ capacity_in text.now }
    {
        let records = number_within(u32::from(LEAST), u32::from(MOST), text)?;
        Some(Capacity {
            records: records as u16,
        })
    }

    /// The number of records.
    pub fn records(self) -> u16
        ensures value { result ≡ self }
        ensures some { 0 < result }
        ensures most { result ≤ 1024 }
    {
        self.records
    }
}
