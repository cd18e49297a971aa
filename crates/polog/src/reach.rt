//! What an operation may cover, and which rows are looked at for it.

ghost use Rattle.std.specs.Prelude.{◌≡◌};
ghost use Rattle.op_base.specs.declared.operation.Act.{Act};
ghost use Rattle.polog.specs.Marks.{look_of, mark_of};

/// What an operation may cover of its object.
#[derive(Clone, Copy, Debug, PartialEq, Eq)]
pub enum Reach {
    /// Nothing.
    Nothing,
    /// Operations that name the value that it names, or none where it names none.
    Value,
    /// Any operation.
    Object,
}

/// Which rows of an object are looked at.
#[derive(Clone, Copy, Debug)]
pub enum Look {
    /// None.
    AtNone,
    /// Those whose act has a mark.
    AtMark(u32),
    /// All.
    AtAll,
}

/// Which of so many rows are looked at for an act of a mark that may cover so much.
pub fn look_of(reach: Reach, mark: u32, rows: usize) -> Look
    ensures { (act : Act) → mark_of act ≡ mark → result ≡ look_of reach act rows }
{
    match reach {
        Reach::Nothing => Look::AtNone,
        Reach::Value if rows > 2 => Look::AtMark(mark),
        Reach::Value | Reach::Object => Look::AtAll,
    }
}
