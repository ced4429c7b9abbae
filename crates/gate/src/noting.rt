// Looking up and noting stamps.
ghost use Rattle.std.specs.Prelude.{◌≡◌, [], ◌∷◌, ◌++◌, length, nat_lt, if◌then◌else◌};
ghost use Rattle.gate.specs.Rows.{is_of, spot, fresh, noted, rows_of};

use crate::pairs::{PAIRS, Pair, Pairs};
use carrier::route::Route;

impl Pair {
    // Is this the row of this route?
    pub fn is_of(&self, route: Route) -> bool
        ensures { result ≡ is_of route.source route.destination self.now }
    {
        self.route == route
    }
}

impl Pairs {
    pub fn new() -> Pairs
        ensures { rows_of result ≡ [] }
    {
        Pairs {
            rows: [Pair::default(); PAIRS],
            count: 0,
        }
    }

    // Where the row of a route stands.
    fn row_of(&self, route: Route) -> Option<usize>
        ensures { result ≡ spot route.source route.destination (rows_of self.now) }
    {
        self.rows[..self.count]
            .iter()
            .position(|row| row.is_of(route))
    }

    // A row behind the others, if there is room for one.
    fn push(&mut self, row: Pair) -> bool
        ensures room { result ≡ nat_lt (length (rows_of self.old)) 16 }
        ensures rows { rows_of self.new
            ≡ (if result then rows_of self.old ++ row ∷ [] else rows_of self.old) }
    {
        if self.count == PAIRS {
            return false;
        }
        self.rows[self.count] = row;
        self.count += 1;
        true
    }

    // Notes a stamp that is above the last given of its pair, if the pair has a row or can get one.
    pub fn note(&mut self, route: Route, stamp: u32) -> bool
        ensures answer { result ≡ fresh (rows_of self.old) route.source route.destination stamp }
        ensures rows { rows_of self.new
            ≡ (if result then noted (rows_of self.old) route.source route.destination stamp
            else rows_of self.old) }
    {
        match self.row_of(route) {
            Some(i) => {
                let newer = self.rows[i].stamp < stamp;
                if newer {
                    self.rows[i] = Pair { route, stamp };
                }
                newer
            }
            None => 0 < stamp && self.push(Pair { route, stamp }),
        }
    }
}
