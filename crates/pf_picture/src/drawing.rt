use pf_courses::listed::Listed;
use pf_run::denied::Denied;
use std::marker::Model;

/// What a picture tells of a listed task.
#[derive(Drop)]
pub struct Drawing {
    listed: Listed,
    label: String,
    weight: String,
    early: u64,
    denied: Vec<Denied>,
}

impl Model for Drawing {
    ghost use Rattle.std.specs.String.{string_bytes};
    ghost use Rattle.pf_picture.specs.Drawing.{Drawing};

    ghost Value = { Drawing };

    ghost view = { λ d. record {
      listing = d.listed;
      label = string_bytes d.label;
      weight = string_bytes d.weight;
      early = d.early;
      denied = d.denied.items;
    } };
}

impl Drawing {
    ghost use Rattle.std.specs.Prelude.{◌≡◌};
    ghost use Rattle.std.specs.String.{string_bytes};

    /// A listed task, what it is called, the weight that its join asks for, by how many slots its subtasks may run before
    /// their release, and its denied events in run order.
    pub fn new(
        listed: Listed,
        label: String,
        weight: String,
        early: u64,
        denied: Vec<Denied>,
    ) -> Self
        ensures { result ≡ record {
          listing = listed;
          label = string_bytes label;
          weight = string_bytes weight;
          early = early;
          denied = denied.items;
        } }
    {
        Drawing {
            listed,
            label,
            weight,
            early,
            denied,
        }
    }

    /// The listed task.
    pub fn listed(&self) -> &Listed
        ensures { result.now ≡ self.now.listing }
    {
        &self.listed
    }

    /// What it is called.
    pub fn label(&self) -> &str
        ensures { result.now ≡ self.now.label }
    {
        &self.label
    }

    /// The weight that its join asks for, or a dash where none is held.
    pub fn weight(&self) -> &str
        ensures { result.now ≡ self.now.weight }
    {
        &self.weight
    }

    /// By how many slots its subtasks may run before their release.
    pub fn early(&self) -> u64
        ensures { result ≡ self.now.early }
    {
        self.early
    }

    /// Its denied events, in run order.
    pub fn denied(&self) -> &[Denied]
        ensures { result.now ≡ self.now.denied }
    {
        &self.denied
    }
}
