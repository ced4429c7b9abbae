// What a record must have to stand in a directory, and what it means to change records.
ghost use Rattle.std.specs.Prelude.{◌≡◌};
ghost use Rattle.imsi.specs.declared.Imsi.{Imsi};

use imsi::Imsi;

// A record of one mobile.
pub trait OfMobile: Copy {
    ghost whose: { Self → Imsi };

    fn imsi(&self) -> Imsi
        ensures { result ≡ whose self.now };
}

// A change that can be made to every record.
// A trait, not a closure, whose calls the caller would have to allow at each record: `to` is a function, of
// which laws speak.
pub trait Change<R> {
    ghost to: { Self → R → R };

    fn change(&self, before: R) -> R
        ensures { result ≡ to self.now before };
}
