use std::marker::Model;

/// What was refused, denied and missed, each as a JSON array.
#[derive(Drop)]
pub struct Arrays {
    /// The denied events.
    pub denied: Vec<u8>,
    /// The tasks with a missed window.
    pub missed: Vec<u8>,
    /// The records with a refused command.
    pub refused: Vec<u8>,
}

impl Model for Arrays {
    ghost use Rattle.pf_fit_text.specs.Json.{Lists};

    ghost Value = { Lists };

    ghost view = { λ a. record { denied = a.denied.items; missed = a.missed.items; refused = a.refused.items } };
}
