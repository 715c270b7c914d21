use std::marker::Model;
use table::line::Line;

pub mod checking;
pub mod entering;

// The load cases entered so far. A clause sees their list; their numbers rise strictly, and every number and moment is within its limits.
#[derive(Drop)]
pub struct Cases {
    list: Vec<Line>,
}

impl Model for Cases {
    ghost use Rattle.std.specs.Prelude.{List};
    ghost use Rattle.table.specs.declared.line.Line.{Line};
    ghost use Rattle.trial.specs.Entering.{InOrder};

    ghost Value = { List Line };

    ghost view = { λ c. c.list.items };

    ghost invariant = { λ c. InOrder c.list.items };
}
