//! The objects that a live input names.

ghost use Rattle.std.specs.Prelude.{◌≡◌, length, OnOk, IfOk};
ghost use Rattle.std.specs.List.Sorted.{IsBinarySearchResult, IsSearchInRange};
ghost use Rattle.op_base.specs.Order.{text_cmp};
ghost use Rattle.live_run.specs.Inputs.{ObjectsRise, object_text, put_object, put_object_of_line, objects_in, commands_in};

use crate::input::NumberedLine;
use op_base::{NoMemory, ObjectId};
use script_lang::{LiveCommand, LiveLine};
use std::alloc::Global;
use std::cmp::Ordering;

/// The objects that lines name, in byte order of their texts and each once.
pub fn objects_in(alloc: Global, lines: &[NumberedLine]) -> Result<Vec<ObjectId>, NoMemory>
    ensures { IfOk result (λ objects. objects.items ≡ objects_in (commands_in lines.now)) }
{
    let mut objects = Vec::new(alloc);
    for line in lines {
        put_object_of(alloc, &mut objects, &line.line)?;
    }
    Ok(objects)
}

/// Puts the object that a line names, where it names one.
fn put_object_of(
    alloc: Global,
    objects: &mut Vec<ObjectId>,
    line: &LiveLine,
) -> Result<(), NoMemory>
    requires rise { ObjectsRise objects.old.items }
    ensures rise { ObjectsRise objects.new.items }
    ensures put { OnOk result (objects.new.items ≡ put_object_of_line objects.old.items line.now) }
{
    match line {
        LiveLine::Run(LiveCommand::Do { update, .. }) => {
            put_object(alloc, objects, &update.object)
        }
        LiveLine::Run(LiveCommand::Ask { object, .. }) => put_object(alloc, objects, object),
        _ => Ok(()),
    }
}

/// Puts an object at its place, where it isn't there.
fn put_object(alloc: Global, objects: &mut Vec<ObjectId>, object: &ObjectId) -> Result<(), NoMemory>
    requires rise { ObjectsRise objects.old.items }
    ensures rise { ObjectsRise objects.new.items }
    ensures put { OnOk result (objects.new.items ≡ put_object object.now objects.old.items) }
{
    match place_of(objects.as_slice(), object) {
        Ok(_) => Ok(()),
        Err(place) => Ok(objects.insert(place, object.copy(alloc)?)?),
    }
}

/// Where an object stands among objects that rise, or where it belongs.
fn place_of(objects: &[ObjectId], object: &ObjectId) -> Result<usize, usize>
    ensures found { IsBinarySearchResult (λ other. text_cmp (object_text other) (object_text object.now)) objects.now result }
    ensures bound { IsSearchInRange result (length objects.now) }
{
    objects.binary_search_by(
        |other| -> Ordering
            ensures { result ≡ text_cmp (object_text other.now) (object_text object.entry.now) }
        { order(other, object) },
    )
}

/// How the texts of two objects compare.
fn order(object: &ObjectId, other: &ObjectId) -> Ordering
    ensures { result ≡ text_cmp (object_text object.now) (object_text other.now) }
{
    match object.kind.word().cmp(other.kind.word()) {
        Ordering::Equal => object.key.cmp(&other.key),
        unequal => unequal,
    }
}
