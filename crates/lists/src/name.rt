// The lists' names, each of which has a number.
ghost use Rattle.std.specs.Prelude.{◌≡◌};
ghost use Rattle.lists.specs.Lists as Spec;

use words::Malformed;

// The capacities: of the lists with an entry for each albedo, of the radius nodes, and of the lists
// with an entry for each of both.
pub(crate) const ROWS: usize = 130;

pub(crate) const RADII: usize = 66;

pub(crate) const CELLS: usize = 8580;

#[derive(Clone, Copy)]
pub enum Name {
    Rho,
    Radii,
    Profile,
    Eff,
    Cdf,
    Marks,
    Nodes1,
    Nodes2,
    Values,
    OwnCdf,
}

// The lists of a table.
pub const LENT: [Name; 6] = [
    Name::Rho,
    Name::Radii,
    Name::Profile,
    Name::Eff,
    Name::Cdf,
    Name::Marks,
];

// A caller's own.
pub const OWN: [Name; 4] = [Name::Nodes1, Name::Nodes2, Name::Values, Name::OwnCdf];

// Which they are: that is the contract, and the function does nothing.
pub fn names()
    ensures lent { LENT ≡ Spec.lent }
    ensures own { OWN ≡ Spec.own }
{}

impl Name {
    // For how many entries the list has room.
    pub(crate) fn capacity(self) -> usize
        ensures { result ≡ Spec.capacity self }
    {
        match self {
            Name::Rho | Name::Eff | Name::Marks | Name::Nodes1 | Name::Nodes2 => ROWS,
            Name::Radii => RADII,
            Name::Profile | Name::Cdf | Name::Values | Name::OwnCdf => CELLS,
        }
    }
}

impl TryFrom<u32> for Name {
    type Error = Malformed;

    ghost try_from_gives = { Spec.Numbers };

    // The list of a number.
    fn try_from(number: u32) -> Result<Name, Malformed> {
        match number {
            0 => Ok(Name::Rho),
            1 => Ok(Name::Radii),
            2 => Ok(Name::Profile),
            3 => Ok(Name::Eff),
            4 => Ok(Name::Cdf),
            5 => Ok(Name::Marks),
            6 => Ok(Name::Nodes1),
            7 => Ok(Name::Nodes2),
            8 => Ok(Name::Values),
            9 => Ok(Name::OwnCdf),
            _ => Err(Malformed),
        }
    }
}
