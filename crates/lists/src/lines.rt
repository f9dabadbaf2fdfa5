// The answers to lines about lists.
ghost use Rattle.std.specs.Prelude.{◌≡◌, ◌≤◌, true, is_ok, is_err, is_some, is_none, leb, length, take};
ghost use Rattle.table.specs.Parameters.{lists_of_mut, lists_of_lent};
ghost use Rattle.words.specs.Line.{left};
ghost use Rattle.lists.specs.Lists as Spec;

use crate::hash::Hash;
use crate::list::{AnyUsed, List};
use crate::name::{CELLS, LENT, Name, RADII, ROWS};
use table::{Lent, Record, TableMut};
use words::{Line, Malformed, Output};

// A table's six lists, and a caller's own: two lists of nodes, values and a CDF.
#[derive(Drop)]
pub struct Lists {
    rho: List<f32, ROWS>,
    radii: List<f32, RADII>,
    profile: List<f32, CELLS>,
    eff: List<f32, ROWS>,
    cdf: List<f32, CELLS>,
    marks: List<u8, ROWS>,
    nodes1: List<f32, ROWS>,
    nodes2: List<f32, ROWS>,
    values: List<f32, CELLS>,
    own_cdf: List<f32, CELLS>,
}

// The used parts of a caller's own lists.
#[derive(Drop)]
pub struct Own<'a> {
    pub nodes1: &'a mut [f32],
    pub nodes2: &'a mut [f32],
    pub values: &'a mut [f32],
    pub cdf: &'a mut [f32],
}

// Each list has room for so many entries.
fn check_lens(names: &[Name], lens: &[u32]) -> Result<(), Malformed>
    ensures { is_ok result ≡ Spec.within names.now lens.now }
{
    for (name, len) in names.iter().zip(lens) {
        if *len as usize > name.capacity() {
            return Err(Malformed);
        }
    }
    Ok(())
}

// Stores a line's floats in a list. In the match over the ten lists each arm would make room for a line,
// and a short line takes half as long again. Not over any type, of which no proof knows that 64 fit.
fn put_floats<const N: usize>(
    list: &mut List<f32, N>,
    from: usize,
    line: Line<'_>,
) -> Result<(), Malformed>
    ensures { is_err result ≡ true → list.new ≡ list.old }
{
    list.put(from, line.entries()?.as_slice())
}

// The same of bytes.
fn put_bytes<const N: usize>(
    list: &mut List<u8, N>,
    from: usize,
    line: Line<'_>,
) -> Result<(), Malformed>
    ensures { is_err result ≡ true → list.new ≡ list.old }
{
    list.put(from, line.entries()?.as_slice())
}

impl Lists {
    // All lengths and entries are 0.
    pub fn new() -> Lists {
        Lists {
            rho: List::new(0.0),
            radii: List::new(0.0),
            profile: List::new(0.0),
            eff: List::new(0.0),
            cdf: List::new(0.0),
            marks: List::new(0),
            nodes1: List::new(0.0),
            nodes2: List::new(0.0),
            values: List::new(0.0),
            own_cdf: List::new(0.0),
        }
    }

    // The used parts of a table's lists.
    pub fn lent(&mut self) -> Lent<'_>
        ensures { lists_of_lent result ≡ Spec.table self.old }
    {
        Lent {
            rho_samples: self.rho.used_mut(),
            radius_samples: self.radii.used_mut(),
            profile: self.profile.used_mut(),
            rho_eff: self.eff.used_mut(),
            profile_cdf: self.cdf.used_mut(),
            marks: self.marks.used_mut(),
        }
    }

    // The same, with a record.
    pub fn table(&mut self, r: Record) -> TableMut<'_>
        ensures given { result.record ≡ r }
        ensures lists { lists_of_mut result ≡ Spec.table self.old }
    {
        let lent = self.lent();
        // lent on as `&`, which wants variables
        let rho_samples = lent.rho_samples;
        let radius_samples = lent.radius_samples;
        TableMut {
            record: r,
            rho_samples,
            radius_samples,
            profile: lent.profile,
            rho_eff: lent.rho_eff,
            profile_cdf: lent.profile_cdf,
            marks: lent.marks,
        }
    }

    pub fn own(&mut self) -> Own<'_>
        ensures nodes1 { result.nodes1.now ≡ take self.old.nodes1.len self.old.nodes1.room }
        ensures nodes2 { result.nodes2.now ≡ take self.old.nodes2.len self.old.nodes2.room }
        ensures values { result.values.now ≡ take self.old.values.len self.old.values.room }
        ensures cdf { result.cdf.now ≡ take self.old.own_cdf.len self.old.own_cdf.room }
    {
        Own {
            nodes1: self.nodes1.used_mut(),
            nodes2: self.nodes2.used_mut(),
            values: self.values.used_mut(),
            cdf: self.own_cdf.used_mut(),
        }
    }

    // A match for each thing that is done with a list of a name, here and below, since the ten have five
    // types. First the list to be read.
    fn list(&self, name: Name) -> AnyUsed<'_> {
        match name {
            Name::Rho => AnyUsed::Floats(self.rho.used()),
            Name::Radii => AnyUsed::Floats(self.radii.used()),
            Name::Profile => AnyUsed::Floats(self.profile.used()),
            Name::Eff => AnyUsed::Floats(self.eff.used()),
            Name::Cdf => AnyUsed::Floats(self.cdf.used()),
            Name::Marks => AnyUsed::Bytes(self.marks.used()),
            Name::Nodes1 => AnyUsed::Floats(self.nodes1.used()),
            Name::Nodes2 => AnyUsed::Floats(self.nodes2.used()),
            Name::Values => AnyUsed::Floats(self.values.used()),
            Name::OwnCdf => AnyUsed::Floats(self.own_cdf.used()),
        }
    }

    fn set_len(&mut self, name: Name, len: u32)
        ensures { self.new ≡ Spec.set_len name len self.old }
    {
        match name {
            Name::Rho => self.rho.set_len(len),
            Name::Radii => self.radii.set_len(len),
            Name::Profile => self.profile.set_len(len),
            Name::Eff => self.eff.set_len(len),
            Name::Cdf => self.cdf.set_len(len),
            Name::Marks => self.marks.set_len(len),
            Name::Nodes1 => self.nodes1.set_len(len),
            Name::Nodes2 => self.nodes2.set_len(len),
            Name::Values => self.values.set_len(len),
            Name::OwnCdf => self.own_cdf.set_len(len),
        }
    }

    fn set_lens(&mut self, names: &[Name], lens: &[u32])
        ensures { self.new ≡ Spec.set_lens names.now lens.now self.old }
    {
        for (name, len) in names.iter().zip(lens) {
            self.set_len(*name, *len);
        }
    }

    // Gives lists the lengths of a line, each at most the capacity. There are ten lists.
    pub fn lens<const N: usize>(
        &mut self,
        names: &[Name; N],
        mut line: Line<'_>,
        out: &mut Output,
    ) -> Result<(), Malformed>
        requires { N ≤ 10 }
        ensures lists { self.new ≡ Spec.lens names.now (left line.entry) self.old }
        ensures malformed { is_err result ≡ is_none (Spec.lens_of names.now (left line.entry)) }
    {
        let lens = line.numbers::<u32, N>()?;
        line.end()?;
        check_lens(names, &lens)?;
        self.set_lens(names, &lens);
        out.text(b"ok");
        Ok(())
    }

    // Stores a line's entries in a list. A malformed line changes nothing.
    fn put_in(&mut self, name: Name, from: usize, line: Line<'_>) -> Result<(), Malformed>
        ensures { is_err result ≡ true → self.new ≡ self.old }
    {
        match name {
            Name::Rho => put_floats(&mut self.rho, from, line),
            Name::Radii => put_floats(&mut self.radii, from, line),
            Name::Profile => put_floats(&mut self.profile, from, line),
            Name::Eff => put_floats(&mut self.eff, from, line),
            Name::Cdf => put_floats(&mut self.cdf, from, line),
            Name::Marks => put_bytes(&mut self.marks, from, line),
            Name::Nodes1 => put_floats(&mut self.nodes1, from, line),
            Name::Nodes2 => put_floats(&mut self.nodes2, from, line),
            Name::Values => put_floats(&mut self.values, from, line),
            Name::OwnCdf => put_floats(&mut self.own_cdf, from, line),
        }
    }

    // Fills a list. A malformed line changes nothing.
    fn fill_in(&mut self, name: Name, line: Line<'_>) -> Result<(), Malformed>
        ensures { is_err result ≡ true → self.new ≡ self.old }
    {
        match name {
            Name::Rho => self.rho.fill(line),
            Name::Radii => self.radii.fill(line),
            Name::Profile => self.profile.fill(line),
            Name::Eff => self.eff.fill(line),
            Name::Cdf => self.cdf.fill(line),
            Name::Marks => self.marks.fill(line),
            Name::Nodes1 => self.nodes1.fill(line),
            Name::Nodes2 => self.nodes2.fill(line),
            Name::Values => self.values.fill(line),
            Name::OwnCdf => self.own_cdf.fill(line),
        }
    }

    pub fn put(&mut self, mut line: Line<'_>, out: &mut Output) -> Result<(), Malformed>
        ensures { is_err result ≡ true → self.new ≡ self.old }
    {
        let name = Name::try_from(line.number::<u32>()?)?;
        let from = line.number::<usize>()?;
        self.put_in(name, from, line)?;
        out.text(b"ok");
        Ok(())
    }

    pub fn fill(&mut self, mut line: Line<'_>, out: &mut Output) -> Result<(), Malformed>
        ensures { is_err result ≡ true → self.new ≡ self.old }
    {
        let name = Name::try_from(line.number::<u32>()?)?;
        self.fill_in(name, line)?;
        out.text(b"ok");
        Ok(())
    }

    pub fn show(&self, mut line: Line<'_>, out: &mut Output) -> Result<(), Malformed> {
        let number = line.number::<u32>()?;
        let name = Name::try_from(number)?;
        line.end()?;
        out.text(b"list");
        out.int(number);
        self.list(name).show(out);
        Ok(())
    }

    fn show_hash(&self, names: &[Name], out: &mut Output) {
        let mut hash = Hash::new();
        for name in names {
            self.list(*name).join(&mut hash);
        }
        out.text(b"hash");
        out.long_bits(hash.0);
    }

    // A hash of these lists.
    pub fn dump(&self, names: &[Name], line: Line<'_>, out: &mut Output) -> Result<(), Malformed>
        ensures { is_err result ≡ is_some (left line.entry) }
    {
        line.end().map(|()| self.show_hash(names, out))
    }

    fn show_lent(&self, out: &mut Output) {
        out.text(b"lists");
        for name in LENT {
            self.list(name).show(out);
        }
    }

    // The table's lists whole.
    pub fn dump_all(&self, line: Line<'_>, out: &mut Output) -> Result<(), Malformed>
        ensures { is_err result ≡ is_some (left line.entry) }
    {
        line.end().map(|()| self.show_lent(out))
    }
}
