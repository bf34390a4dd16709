//! Lists of what has names, with tables of the places of the names.
ghost use Rattle.std.specs.Prelude.{◌≡◌, ◌<◌, ℕ, List, [], ◌∷◌, ◌++◌, length, map, OnOk, OnErr, IfOk, IfSome};
ghost use Rattle.sk_types_rules.specs.Scope.{place_of, all_distinct};
ghost use Rattle.sk_types_names.specs.Tables.{ArePlaces};

use crate::numbers::Numbers;
use sk_base::Name;
use std::alloc::{AllocError, Global};
use std::marker::Model;

/// What has a name.
pub trait Named {
    ghost name_of: { Self → List ℕ };

    /// The name.
    fn name(&self) -> &Name
        ensures { result.now ≡ name_of self.now };
}

/// A list of what has names, with a table of the places of the names. Contracts see the list.
#[derive(Drop)]
pub struct Listed<T: Named> {
    items: Vec<T>,
    places: Numbers,
}

impl<T: Named> Model for Listed<T> {
    ghost Value = { List T };

    ghost view = { λ listed. listed.items.items };

    ghost invariant = { λ listed. ArePlaces listed.places (map T.name_of listed.items.items) };
}

/// Notes the place of a name that is put behind others, where it is new.
#[tactic(auto, using(crate::proofs::ListedLaws::old_place, crate::proofs::ListedLaws::new_place))]
fn note(places: &mut Numbers, name: &Name, place: usize) -> Result<(), AllocError>
    ensures ok { OnOk result ((names : List (List ℕ)) → length names ≡ place → ArePlaces places.old names → ArePlaces places.new (names ++ name.now ∷ [])) }
    ensures err { OnErr result (places.new ≡ places.old) }
{
    match places.get(name) {
        Some(_) => Ok(()),
        None => places.put(name, place),
    }
}

impl<T: Named + Drop> Listed<T> {
    /// An empty list. It takes no memory.
    #[tactic(auto, using(crate::proofs::ListedLaws::no_places))]
    pub fn new(alloc: Global) -> Listed<T>
        ensures { result ≡ [] }
    {
        Listed {
            items: Vec::new(alloc),
            places: Numbers::new(alloc),
        }
    }

    /// The number of items.
    pub fn len(&self) -> usize
        ensures { result ≡ length self.now }
    {
        self.items.len()
    }

    /// The items.
    pub fn as_slice(&self) -> &[T]
        ensures { result.now ≡ self.now }
    {
        self.items.as_slice()
    }

    /// The items alone.
    pub fn into_vec(self) -> Vec<T>
        ensures { result.items ≡ self }
    {
        self.items
    }

    /// The place of the first item of this name.
    #[tactic(auto, using(crate::proofs::ListedLaws::named_within))]
    pub fn place(&self, name: &Name) -> Option<usize>
        ensures value { result ≡ place_of (map T.name_of self.now) name.now }
        ensures within { IfSome result (λ i. i < length self.now) }
    {
        self.places.get(name)
    }

    /// One more item, at the end. Where memory is wanting, the list stays as it was.
    #[tactic(auto, using(crate::proofs::ListedLaws::names_more, crate::proofs::ListedLaws::names_length))]
    pub fn push(&mut self, item: T) -> Result<(), AllocError>
        ensures ok { OnOk result (self.new ≡ self.old ++ item ∷ []) }
        ensures err { OnErr result (self.new ≡ self.old) }
    {
        self.items.reserve(1)?;
        note(&mut self.places, item.name(), self.items.len())?;
        self.items.push_reserved(item);
        Ok(())
    }
}

/// Whether no two of these have the same name. Want of memory is the only error.
pub fn are_distinct<T: Named>(alloc: Global, items: &[T]) -> Result<bool, AllocError>
    ensures { IfOk result (λ b. b ≡ all_distinct (map T.name_of items.now)) }
{
    let mut places = Numbers::new(alloc);
    for (i, item) in items.iter().enumerate() {
        let name = item.name();
        if places.get(name).is_some() {
            return Ok(false);
        }
        places.put(name, i)?;
    }
    Ok(true)
}
