use pf_vocabulary::names::name::Name;
use std::alloc::{AllocError, Global};
use std::collections::BTreeMap;
use std::marker::Model;

/// A label, and the number that its event was given.
#[derive(Drop)]
pub struct Labelled {
    /// The label.
    pub name: Name,
    /// The number of the event; 0 where the insert was refused.
    pub number: u64,
}

/// The labels of events, of which one is found without a look at each. Contracts see them as a list, in the order in which they
/// were given first.
#[derive(Drop)]
pub struct Labels {
    alloc: Global,
    all: Vec<Labelled>,
    /// Of each label its place among all.
    places: BTreeMap<String, usize>,
}

impl Model for Labels {
    ghost use Rattle.std.specs.Prelude.{ℕ, List, All, ◌≡◌, true};
    ghost use Rattle.std.specs.BTreeMap.{get_by_text};
    ghost use Rattle.pf_vocabulary.specs.Names.Text.{is_text};
    ghost use Rattle.pf_script.specs.declared.plan.labels.Labelled.{Labelled};
    ghost use Rattle.pf_script.specs.Plan.Labels.{place_of_label};

    ghost Value = { List Labelled };

    ghost view = { λ l. l.all.items };

    ghost invariant = { λ l. ((label : List ℕ) → get_by_text l.places label ≡ place_of_label l.all.items label) × All (λ e. is_text e.name ≡ true) l.all.items };
}

impl Labels {
    ghost use Rattle.std.specs.Prelude.{◌≡◌, [], ◌∷◌, ◌++◌, ◌<◌, ℕ, List, length, option_map, None, Some, true, OnOk};
    ghost use Rattle.pf_vocabulary.specs.Names.Text.{is_text};
    ghost use Rattle.pf_script.specs.Plan.Labels.{label_of_number, labels_with, number_of_label, place_of_label, with_label};

    /// No labels.
    pub fn new(alloc: Global) -> Self
        ensures { result ≡ [] }
    {
        Labels {
            alloc,
            all: Vec::new(alloc),
            places: BTreeMap::new(alloc),
        }
    }

    /// The labels, in the order in which they were given first.
    pub fn all(&self) -> &[Labelled]
        ensures { result.now ≡ self.now }
    {
        &self.all
    }

    /// The number that the event with a label was given, where there is such a label.
    pub fn number_of(&self, label: &[u8]) -> Option<u64>
        ensures { result ≡ number_of_label self.now label.now }
    {
        let place = self.place_of(label)?;
        Some(self.all[place].number)
    }

    /// The place of a label among all.
    fn place_of(&self, label: &[u8]) -> Option<usize>
        ensures { result ≡ place_of_label self.now label.now }
    {
        let places = &self.places;
        let label = Name::new(label)?;
        places.get(label.as_str()).copied()
    }

    /// Gives a label to the event of this number: one that is there goes on to it, but where the number is 0, as the insert was
    /// refused.
    ///
    /// # Errors
    ///
    /// Where memory is refused.
    pub fn give(&mut self, name: Name, number: u64) -> Result<(), AllocError>
        ensures { OnOk result (self.new ≡ labels_with name number self.old) }
    {
        match self.place_of(name.as_bytes()) {
            Some(place) => {
                self.go_on(place, number);
                Ok(())
            }
            None => self.push(name, number),
        }
    }

    /// The label of the event of a number, where it has one.
    pub fn of_number(&self, id: u64) -> Option<&Name>
        ensures { option_map (λ label. label.now) result ≡ label_of_number self.now id }
    {
        for labelled in &self.all {
            if labelled.number == id {
                return Some(&labelled.name);
            }
        }
        None
    }

    /// The label of the event of a number, where it has one, goes on to the event of another, but where the number of that is 0.
    pub fn pass_on(&mut self, id: u64, number: u64)
        ensures { self.new ≡ with_label (label_of_number self.old id) number self.old }
    {
        let Some(label) = self.of_number(id) else {
            return;
        };
        let Some(place) = self.place_of(label.as_bytes()) else {
            unreachable!()
        };
        self.go_on(place, number);
    }

    /// A label, which is at this place, goes on to the event of this number, but where that is 0.
    fn go_on(&mut self, place: usize, number: u64)
        requires { place < length self.old }
        ensures { (label : List ℕ) → place_of_label self.old label ≡ Some place → self.new ≡ labels_with label number self.old }
    {
        if number != 0 {
            self.all[place].number = number;
        }
    }

    /// Adds a label that is not there.
    fn push(&mut self, name: Name, number: u64) -> Result<(), AllocError>
        requires new { place_of_label self.old name ≡ None }
        requires text { is_text name ≡ true }
        ensures { OnOk result (self.new ≡ self.old ++ record { name = name; number = number } ∷ []) }
    {
        let label = String::from_str(self.alloc, name.as_str())?;
        self.all.reserve(1)?;
        self.places.insert(label, self.all.len())?;
        self.all.push_reserved(Labelled { name, number });
        Ok(())
    }
}
