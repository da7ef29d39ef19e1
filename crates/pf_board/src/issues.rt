use std::marker::Brand;

/// What the entries of a history mean, for contracts alone: a type of the caller's stands for it.
pub trait Issues<E> {
    ghost use Rattle.std.specs.Prelude.{ℕ, Bool, List, []};
    ghost use Rattle.pf_board.specs.declared.quantum.Quantum.{Quantum};

    /// What a board is founded on, as the settings of a system.
    type Terms;

    /// The quanta that an entry issues.
    ghost quanta: { E → List Quantum };

    /// Whether an entry is a step. One with quanta always counts as one.
    ghost steps: { E → Bool };

    /// Which histories are legal under which terms. Each entry stands beside the number of the pass that noted it.
    ghost legal: { Self.Terms → List (ℕ × E) → Type 0 };

    /// The empty history always is.
    ghost opens: { (terms : Self.Terms) → legal terms [] };
}

/// The entry that one note enters. Each call names its own.
pub trait Names<E> {
    ghost use Rattle.std.specs.Prelude.{List};

    ghost entry: { List E };
}

impl<E> Names<E> for Brand {
    ghost use Rattle.std.specs.Prelude.{[]};

    ghost entry = { [] };
}
