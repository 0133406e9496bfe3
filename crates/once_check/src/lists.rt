//! Lists of all systems.

ghost use Rattle.std.specs.Prelude.{◌≡◌};
ghost use Rattle.unit_core.specs.Systems.{of_system, lent};

use ale_base::{Items, SystemNo};

/// The list of a system. One that is not there has an empty one.
pub(crate) fn of_system<T>(lists: &[Items<T>], system: SystemNo) -> &[T]
    ensures { result.now ≡ of_system lists.now system }
{
    let number = system.get();
    match lists.get(number as usize - 1) {
        Some(list) => list.as_slice(),
        None => &[],
    }
}

/// The list of a system among those that are lent.
pub(crate) fn list_of<'a, T>(lists: &[&'a [T]], system: SystemNo) -> &'a [T]
    ensures { result.now ≡ of_system (lent lists.now) system }
{
    let number = system.get();
    match lists.get(number as usize - 1) {
        Some(list) => *list,
        None => &[],
    }
}
