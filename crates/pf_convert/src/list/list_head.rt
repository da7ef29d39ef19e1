use crate::list::heading::Heading;
use crate::list::unit_rule::UnitRule;
use csv::ByteRecord;
use std::marker::Model;

/// What the tasks of a list are read by.
#[derive(Drop)]
pub struct ListHead {
    /// In which unit times are.
    pub rule: UnitRule,
    /// Where the columns are.
    pub heading: Heading,
    /// How the heading names them.
    pub names: ByteRecord,
    /// The line of the record within whose last quotes the list ends, if it does.
    pub open_line: Option<u64>,
}

impl Model for ListHead {
    ghost use Rattle.csv.specs.Records.{fields_of};
    ghost use Rattle.pf_convert.specs.List.Heads.{Head};

    ghost Value = { Head };

    ghost view = { λ h. record { rule = h.rule; heading = h.heading; names = fields_of h.names; open_line = h.open_line } };
}
