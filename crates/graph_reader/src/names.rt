ghost use Rattle.std.specs.Prelude.{◌≡◌, ◌<◌, ◌^◌, ◌++◌, ℕ, List as Seq, IfOk, OnOk, length, map};
ghost use Rattle.param_expr.specs.Bind.{place_of};
ghost use Rattle.graph_format.specs.Placed.{first_place};
ghost use Rattle.graph_reader.specs.Lent.{lent, place_in};

use param_expr::{Name, Places};
use pisdf_model::Named;
use std::alloc::{AllocError, Global};
use std::collections::BTreeMap;
use std::marker::Model;

/// A list of fewer than 2^32 names, each of which is found by its first place. The names are lent.
#[derive(Drop)]
pub(crate) struct Names<'a> {
    names: Vec<&'a str>,
    /// The first place of each name.
    places: BTreeMap<&'a str, u32>,
}

impl<'a> Model for Names<'a> {
    ghost use Rattle.std.specs.Prelude.{List, ℕ, ◌≡◌};
    ghost use Rattle.param_expr.specs.Bind.{place_of};
    ghost use Rattle.graph_reader.specs.Lent.{lent, place_in};

    ghost Value = { List (List ℕ) };

    ghost view = { λ n. lent n.names.items };

    ghost invariant = { λ n. (text : List ℕ) → place_in n.places text ≡ place_of (lent n.names.items) text };
}

/// The first place of each of these names.
fn first_places<'a>(alloc: Global, names: &[&'a str]) -> Result<BTreeMap<&'a str, u32>, AllocError>
    requires { length names.now < 2 ^ 32 }
    ensures { IfOk result (λ places. (text : Seq ℕ) → place_in places text ≡ place_of (lent names.now) text) }
{
    let mut places = BTreeMap::new(alloc);
    // The last names come first, so that the first place of a name is the one that stays.
    for behind in 0..names.len() {
        let place = names.len() - 1 - behind;
        places.insert(names[place], place as u32)?;
    }
    Ok(places)
}

impl<'a> Names<'a> {
    /// The names in this order. The error is want of memory, which 2^32 names or more are answered as too: they would
    /// take over 60 gigabytes.
    pub(crate) fn new(alloc: Global, names: Vec<&'a str>) -> Result<Names<'a>, AllocError>
        ensures { IfOk result (λ n. n ≡ lent names.entry.items) }
    {
        if names.len() > u32::MAX as usize {
            return Err(AllocError);
        }
        let places = first_places(alloc, names.as_slice())?;
        Ok(Names { names, places })
    }

    /// The first place of a name.
    pub(crate) fn place_of(&self, name: &Name) -> Option<u32>
        ensures { result ≡ place_of self.now name.now }
    {
        self.places.get(name.text()).copied()
    }

    /// The first place of a name, and 0 where it isn't there.
    pub(crate) fn place_or_zero(&self, name: &Name) -> u32
        ensures { result ≡ first_place self.now name.now }
    {
        self.place_of(name).unwrap_or(0)
    }
}

impl Places for Names<'_> {
    ghost names = { λ n. n };

    fn first_place(&self, name: &Name) -> Option<u32> {
        self.place_of(name)
    }
}

/// Lends the names of some items, behind others.
fn lend_names<'a, T: Named>(names: &mut Vec<&'a str>, items: &'a [T]) -> Result<(), AllocError>
    ensures { OnOk result (lent names.new.items ≡ lent names.old.items ++ map T.named items.now) }
{
    for item in items {
        names.push(item.name().text())?;
    }
    Ok(())
}

/// The names of a list's items.
pub(crate) fn names_of<'a, T: Named>(alloc: Global, items: &'a [T]) -> Result<Names<'a>, AllocError>
    ensures { IfOk result (λ names. names ≡ map T.named items.now) }
{
    let mut names = Vec::new(alloc);
    lend_names(&mut names, items)?;
    Names::new(alloc, names)
}

/// The names of a list's items, then those of another's.
pub(crate) fn names_of_both<'a, A: Named, B: Named>(
    alloc: Global,
    front: &'a [A],
    back: &'a [B],
) -> Result<Names<'a>, AllocError>
    ensures { IfOk result (λ names. names ≡ map A.named front.now ++ map B.named back.now) }
{
    let mut names = Vec::new(alloc);
    lend_names(&mut names, front)?;
    lend_names(&mut names, back)?;
    Names::new(alloc, names)
}
