// What the calls of a core keep, whatever rule events go by.
ghost use Rattle.history.specs.Subject.{Laws};
ghost use Rattle.world_cells.specs.Theory.{Rule, subject};
ghost use Rattle.undo.specs.Standing.{Begins, Enters, Undoes, Redoes, Exchanges};

/// What events do, by the cells that they touch.
pub trait Lawful {
    ghost does: { Rule };

    ghost laws: { Laws (subject does) };
}

/// A new core stands, and it stands after each of its calls.
pub fn cores_stand<E: Lawful>()
    ensures begins { Begins E.does }
    ensures enters { Enters E.does }
    ensures undoes { Undoes E.does }
    ensures redoes { Redoes E.does }
    ensures exchanges { Exchanges E.does }
{}
