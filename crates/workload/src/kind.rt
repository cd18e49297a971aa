//! The kinds that scripts are made of, by number.

ghost use Rattle.std.specs.Prelude.{◌≡◌, ◌<◌};
ghost use Rattle.workload.specs.Script.{kind_at};

use op_base::Kind;

/// The kinds that scripts are made of, in their order: all but lists.
const KINDS: [Kind; 7] = [
    Kind::AwSet,
    Kind::RwSet,
    Kind::EwFlag,
    Kind::DwFlag,
    Kind::MvReg,
    Kind::Counter,
    Kind::RCounter,
];

/// The kind of a number, in the order of those that scripts are made of.
pub fn kind_at(place: u32) -> Kind
    requires { place < 7 }
    ensures { result ≡ kind_at place }
{
    KINDS[place as usize]
}
