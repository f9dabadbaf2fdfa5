// The six lists of a table with its record, as a caller lends them: to be read, to be built, or to be
// started. Three structs with the same names, since no type is generic over `&` and `&mut`.
ghost use Rattle.std.specs.Prelude.{◌≡◌};
ghost use Rattle.table.specs.Parameters.{lengths_of, lists_of, lists_of_mut, lists_of_lent};

use crate::parameters::{Lengths, Record};

// A table that is only read.
#[derive(Clone, Copy)]
pub struct Table<'a> {
    pub record: Record,
    pub rho_samples: &'a [f32],
    pub radius_samples: &'a [f32],
    pub profile: &'a [f32],
    pub rho_eff: &'a [f32],
    pub profile_cdf: &'a [f32],
    pub marks: &'a [u8],
}

impl Table<'_> {
    pub fn lengths(self) -> Lengths
        ensures { result ≡ lengths_of (lists_of self.entry) }
    {
        Lengths {
            rho_samples: self.rho_samples.len(),
            radius_samples: self.radius_samples.len(),
            profile: self.profile.len(),
            rho_eff: self.rho_eff.len(),
            profile_cdf: self.profile_cdf.len(),
            marks: self.marks.len(),
        }
    }
}

// A table in which rows are built, from nodes that stay as they are.
#[derive(Drop)]
pub struct TableMut<'a> {
    pub record: Record,
    pub rho_samples: &'a [f32],
    pub radius_samples: &'a [f32],
    pub profile: &'a mut [f32],
    pub rho_eff: &'a mut [f32],
    pub profile_cdf: &'a mut [f32],
    pub marks: &'a mut [u8],
}

impl TableMut<'_> {
    // The table as it stands, to be read.
    pub fn table(&self) -> Table<'_>
        ensures record { result.record ≡ self.now.record }
        ensures lists { lists_of result ≡ lists_of_mut self.now }
    {
        Table {
            record: self.record,
            rho_samples: self.rho_samples,
            radius_samples: self.radius_samples,
            profile: self.profile,
            rho_eff: self.rho_eff,
            profile_cdf: self.profile_cdf,
            marks: self.marks,
        }
    }
}

// Six lists of any contents, in which a table is started.
#[derive(Drop)]
pub struct Lent<'a> {
    pub rho_samples: &'a mut [f32],
    pub radius_samples: &'a mut [f32],
    pub profile: &'a mut [f32],
    pub rho_eff: &'a mut [f32],
    pub profile_cdf: &'a mut [f32],
    pub marks: &'a mut [u8],
}

impl Lent<'_> {
    pub fn lengths(&self) -> Lengths
        ensures { result ≡ lengths_of (lists_of_lent self.now) }
    {
        Lengths {
            rho_samples: self.rho_samples.len(),
            radius_samples: self.radius_samples.len(),
            profile: self.profile.len(),
            rho_eff: self.rho_eff.len(),
            profile_cdf: self.profile_cdf.len(),
            marks: self.marks.len(),
        }
    }
}
