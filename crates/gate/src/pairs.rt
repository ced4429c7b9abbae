// What the gate remembers: the stamp last given of each pair of nodes.
ghost use Rattle.std.specs.Prelude.{◌≡◌, ◌≤◌};

use carrier::route::Route;
use elements::node::NodeNumber;

// So many pairs are remembered.
pub(crate) const PAIRS: usize = 16;

#[derive(Clone, Copy)]
pub struct Pair {
    pub route: Route,
    pub stamp: u32,
}

// A blank, from nobody to nobody. By hand, since a node has no number by default.
impl Default for Pair {
    ghost is_default = { λ p. p.stamp ≡ 0 };

    fn default() -> Pair {
        let nobody = NodeNumber { number: 0 };
        Pair {
            route: Route {
                source: nobody,
                destination: nobody,
            },
            stamp: 0,
        }
    }
}

// The first `count` rows are those of the first pairs given, at most 16, in the order in which they were
// first given. An array with its count, not an ArrayVec, so that what a gate remembers can be copied.
#[derive(Clone, Copy)]
pub struct Pairs {
    pub rows: [Pair; PAIRS],
    pub count: usize,
    ghost few: { count ≤ 16 },
}
