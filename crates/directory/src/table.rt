// Looking up, storing and changing the records in the first places of a slice.
// A slice and the count of places held, not one type that has both: its invariant would be that the records
// rise, and a ghost field cannot cite what a bound says of a record.
// Each promise supposes that those records rise; whoever holds them keeps that, as each change of them does.
ghost use Rattle.std.specs.Prelude.{◌≡◌, ◌≤◌, ◌++◌, map, length, take, drop};
ghost use Rattle.directory.specs.Lookup.{at, Held, Stored, AfterChange};
ghost use Rattle.directory.specs.Order.{Climbs};

use crate::record::{Change, OfMobile};
use crate::search::{find, insert_at};
use imsi::Imsi;

// The record of a mobile among the first `held`.
pub fn look<R: OfMobile>(places: &[R], held: usize, imsi: Imsi) -> Option<R>
    ensures { Held R.OfMobile.whose held places.now
        → result ≡ at R.OfMobile.whose (take held places.now) imsi }
{
    if held > places.len() {
        return None;
    }
    let list = &places[0..held];
    let i = find(list, imsi).ok()?;
    Some(list[i])
}

// Writes a record over the one of its mobile, or in its place in the order, among the first `held`.
// Answers how many are held now, or nothing where there is no place.
pub fn store<R: OfMobile>(places: &mut [R], held: usize, record: R) -> Option<usize>
    ensures { Held R.OfMobile.whose held places.old
        → Stored R.OfMobile.whose held «record» places.old places.new result }
{
    if held > places.len() {
        return None;
    }
    match find(&places[0..held], record.imsi()) {
        Ok(i) => {
            places[i] = record;
            Some(held)
        }
        Err(i) => {
            if held == places.len() {
                return None;
            }
            insert_at(&mut places[0..held + 1], i, record);
            Some(held + 1)
        }
    }
}

// Changes every one of these records.
fn change_all<R: OfMobile, F: Change<R>>(list: &mut [R], change: &F)
    ensures { list.new ≡ map (F.Change.to change.now) list.old }
{
    for record in list.iter_mut() {
        *record = change.change(*record);
    }
}

// Changes every record among the first `held`, and nothing behind them.
pub fn change_each<R: OfMobile, F: Change<R>>(places: &mut [R], held: usize, change: &F)
    ensures places { held ≤ length places.old
        → places.new ≡ map (F.Change.to change.now) (take held places.old) ++ drop held places.old }
    ensures lookups { held ≤ length places.old
        → AfterChange R.OfMobile.whose (F.Change.to change.now)
        (take held places.old) (take held places.new) }
{
    if held <= places.len() {
        change_all(&mut places[0..held], change);
    }
}
