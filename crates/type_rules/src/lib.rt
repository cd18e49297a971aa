//! The rules of the store's eight kinds: which operations its log keeps, and which later one covers an earlier one.
//!
//! That an operation may not need to be logged, and may make logged ones redundant, is the idea of Baquero, Almeida and
//! Shoker (arXiv 1710.04469); the table is this project's own profile.
#![tactic(auto)]

ghost use Rattle.std.specs.Prelude.{◌≡◌, option_copied};
ghost use Rattle.causal_model.specs.Acts.{is_clear, value_of, same_value};
ghost use Rattle.causal_model.specs.Covering.{keeps_act, covers_act};

use causal_model::TypeRule;
use op_base::{Act, Kind, Update, Value};

/// The rule of the store's own kinds, for all of their acts.
#[derive(Clone, Copy, Debug, PartialEq, Eq)]
pub struct StoreRule;

impl TypeRule for StoreRule {
    ghost use Rattle.causal_model.specs.Covering.{store_keeps, store_covers};
    ghost use Rattle.causal_model.proofs.Answers.Rules.{covers_one_object, covers_kept_alone, covers_transitively};

    ghost keeps = { λ _. store_keeps };

    ghost covers = { λ _. store_covers };

    fn keeps(&self, update: &Update) -> bool {
        keeps_act(update.object().kind, update.act())
    }

    fn covers(&self, later: &Update, earlier: &Update) -> bool {
        let object = earlier.object();
        later.object().is_same(object)
            && keeps_act(object.kind, earlier.act())
            && covers_act(object.kind, later.act(), earlier.act())
    }

    ghost one_object = { λ _. covers_one_object };

    ghost kept_alone = { λ _. covers_kept_alone };

    ghost transitive = { λ _. covers_transitively };
}

/// Whether an act of a kind is logged while it is unstable and uncovered.
fn keeps_act(kind: Kind, act: &Act) -> bool
    ensures { result ≡ keeps_act kind act.now }
{
    matches!(
        (kind, act),
        (Kind::AwSet, Act::Add(_))
            | (Kind::RwSet, Act::Add(_) | Act::Rmv(_))
            | (Kind::EwFlag, Act::Enable)
            | (Kind::DwFlag, Act::Enable | Act::Disable)
            | (Kind::MvReg, Act::Write(_))
            | (Kind::RCounter, Act::Inc(_) | Act::Dec(_))
            | (Kind::List, Act::Del(_) | Act::Clear)
    )
}

/// Whether a later act of a kind covers an earlier one that is logged.
fn covers_act(kind: Kind, later: &Act, earlier: &Act) -> bool
    ensures { result ≡ covers_act kind later.now earlier.now }
{
    match kind {
        Kind::AwSet | Kind::RwSet => is_clear(later)
            || same_value(value_of(later), value_of(earlier)),
        Kind::EwFlag | Kind::DwFlag | Kind::MvReg => true,
        Kind::Counter | Kind::List => false,
        Kind::RCounter => is_clear(later),
    }
}

fn is_clear(act: &Act) -> bool
    ensures { result ≡ is_clear act.now }
{
    matches!(act, Act::Clear)
}

/// The value that an act names.
fn value_of(act: &Act) -> Option<&Value>
    ensures { option_copied result ≡ value_of act.now }
{
    match act {
        Act::Add(value) | Act::Rmv(value) | Act::Write(value) => Some(value),
        Act::Clear | Act::Enable | Act::Disable | Act::Inc(_) | Act::Dec(_) => None,
        Act::Ins(_, _) | Act::Del(_) => None,
    }
}

/// Whether two acts name one value.
fn same_value(value: Option<&Value>, other: Option<&Value>) -> bool
    ensures { result ≡ same_value (option_copied value.entry) (option_copied other.entry) }
{
    match (value, other) {
        (Some(value), Some(other)) => value == other,
        _ => false,
    }
}
