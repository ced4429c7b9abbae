// Binary search, and making room.
ghost use Rattle.std.specs.Prelude.{◌≡◌, ◌-◌, ◌<◌, length, take};
ghost use Rattle.std.specs.List.{insert};
ghost use Rattle.std.specs.Ordering.{nat_cmp, is_eq};
ghost use Rattle.directory.specs.Order.{rank_of, same, Climbs};
ghost use Rattle.directory.specs.Search.{Within, Place};

use crate::record::OfMobile;
use imsi::Imsi;
use std::cmp::Ordering;

// How the mobile of the record there stands to this one.
fn compare<R: OfMobile>(there: &R, imsi: Imsi) -> Ordering
    ensures is { is_eq result ≡ same imsi (R.OfMobile.whose there.now) }
    ensures ranked { result ≡ nat_cmp (rank_of (R.OfMobile.whose there.now)) (rank_of imsi) }
{
    there.imsi().cmp(&imsi)
}

// Where a mobile's record stands, or where it belongs.
pub(crate) fn find<R: OfMobile>(list: &[R], imsi: Imsi) -> Result<usize, usize>
    ensures within { Within (length list.now) result }
    ensures place { Climbs R.OfMobile.whose list.now → Place R.OfMobile.whose imsi list.now result }
{
    list.binary_search_by(|record| compare(record, imsi))
}

// Puts a record at `i`; those from there on move up by one place, and the last is lost.
pub(crate) fn insert_at<R: OfMobile>(list: &mut [R], i: usize, record: R)
    requires { i < length list.old }
    ensures { list.new ≡ insert (take (length list.old - 1) list.old) i «record» }
{
    list[i..].rotate_right(1);
    list[i] = record;
}
