// What a table's calls are given beside its lists: the record, and the lengths of the six lists.
#![tactic(auto, using(crate::proofs::Literals::lowest), unfolding(interpolation::specs::Checks::max_rows, interpolation::specs::Checks::max_radii))]

ghost use Rattle.std.specs.Prelude.{◌≡◌, ◌≤◌};
ghost use Rattle.interpolation.specs.Checks.{min_nodes, max_rows, max_radii};
ghost use Rattle.scattering.specs.Checks.{min_eta, max_eta};
ghost use Rattle.table.specs.Parameters as Parameters;
ghost use Rattle.table.specs.Checks.{min_g, max_g};

// The record of a table: n albedo rows of m radii each, the phase function's g, and the index of
// refraction eta.
#[derive(Clone, Copy)]
pub struct Record {
    pub n: usize,
    pub m: usize,
    pub g: f32,
    pub eta: f32,
}

impl Record {
    // The fewest and the most albedo rows.
    pub const MIN_ROWS: usize = interpolation::checks::MIN_NODES;

    pub const MAX_ROWS: usize = interpolation::checks::MAX_ROWS;
    // The fewest and the most radii.
    pub const MIN_RADII: usize = interpolation::checks::MIN_NODES;

    pub const MAX_RADII: usize = interpolation::checks::MAX_RADII;
    // g lies between these two, and is neither.
    pub const MIN_G: f32 = -1.0;

    pub const MAX_G: f32 = 1.0;
    // eta lies between these two, or is one of them.
    pub const MIN_ETA: f32 = scattering::checks::MIN_ETA;

    pub const MAX_ETA: f32 = scattering::checks::MAX_ETA;

    pub fn new(n: usize, m: usize, g: f32, eta: f32) -> Record
        ensures { result ≡ Parameters.record_of n m g eta }
    {
        Record { n, m, g, eta }
    }

    // As many rows and radii as a table can have.
    pub fn largest(g: f32, eta: f32) -> Record
        ensures { result ≡ Parameters.largest g eta }
    {
        Record {
            n: Record::MAX_ROWS,
            m: Record::MAX_RADII,
            g,
            eta,
        }
    }

    // The lengths of its six lists. The product of the two sizes cannot overflow.
    #[tactic(auto, using(interpolation::proofs::Refusals::cells_small))]
    pub fn lengths(self) -> Lengths
        requires { (self.n ≤ max_rows) × (self.m ≤ max_radii) }
        ensures { result ≡ Parameters.lengths_for self }
    {
        let cells = self.n * self.m;
        Lengths {
            rho_samples: self.n,
            radius_samples: self.m,
            profile: cells,
            rho_eff: self.n,
            profile_cdf: cells,
            marks: self.n,
        }
    }
}

// The limits are those of the definitions: that is the contract, and the function does nothing.
pub fn limits()
    ensures min_sizes { (Record.MIN_ROWS ≡ min_nodes) × (Record.MIN_RADII ≡ min_nodes) }
    ensures max_sizes { (Record.MAX_ROWS ≡ max_rows) × (Record.MAX_RADII ≡ max_radii) }
    ensures g_bounds { (Record.MIN_G ≡ min_g) × (Record.MAX_G ≡ max_g) }
    ensures eta_bounds { (Record.MIN_ETA ≡ min_eta) × (Record.MAX_ETA ≡ max_eta) }
{}

// The lengths of the six lists.
#[derive(Clone, Copy, Debug, PartialEq, Eq)]
pub struct Lengths {
    pub rho_samples: usize,
    pub radius_samples: usize,
    pub profile: usize,
    pub rho_eff: usize,
    pub profile_cdf: usize,
    pub marks: usize,
}
