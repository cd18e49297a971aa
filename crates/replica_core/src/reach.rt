//! What an operation may cover, so that a log looks at no more than that.

ghost use Rattle.std.specs.Prelude.{◌≡◌};
ghost use Rattle.causal_model.specs.Covering.{store_covers};
ghost use Rattle.polog.specs.Marks.{Reaches};
ghost use Rattle.replica_core.specs.Reach.{reach_in, reach_of};

use op_base::{Act, Kind, Op};
use polog::Reach;

/// What an act of a kind may cover.
fn reach_in(kind: Kind, act: &Act) -> Reach
    ensures { result ≡ reach_in kind act.now }
{
    match (kind, act) {
        (Kind::AwSet | Kind::RwSet | Kind::RCounter, Act::Clear) => Reach::Object,
        (Kind::AwSet | Kind::RwSet, _) => Reach::Value,
        (Kind::EwFlag | Kind::DwFlag | Kind::MvReg, _) => Reach::Object,
        (Kind::Counter | Kind::RCounter | Kind::List, _) => Reach::Nothing,
    }
}

/// What an operation may cover of its object, by the store's rules.
pub fn reach_of(op: &Op) -> Reach
    ensures exact { result ≡ reach_of op.now }
    ensures covers { Reaches result store_covers op.now }
{
    match op {
        Op::NoOp => Reach::Nothing,
        Op::Update(update) => reach_in(update.object().kind, update.act()),
    }
}
