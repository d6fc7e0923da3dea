// What the second of two lists of calls is to the first.
ghost use Rattle.std.specs.Prelude.{Some};
ghost use Rattle.relation.specs.Texts.{relation_text};

use std::fmt;

#[derive(Clone, Copy)]
pub enum Relation {
    // call for call the same
    Same,
    // a bettered copy: in places a quote better than the one that stood there, or a quote where one was withdrawn
    Bettered,
    // the same calls, with such of one stamp exchanged as set different things
    Reordered,
}

impl fmt::Display for Relation {
    ghost output = { λ relation. Some (relation_text relation) };

    fn fmt<W: fmt::Write>(&self, f: &mut fmt::Formatter<W>) -> fmt::Result {
        f.write_str(match self {
            Relation::Same => "the same calls",
            Relation::Bettered => "bettered",
            Relation::Reordered => "reordered",
        })
    }
}
