// A carrier that keeps nothing. It is lawful: what a carrier means says nothing of arrival. So whatever is
// proved over every carrier, and over every carrier in order, is proved over this one too.
#![tactic(auto)]

ghost use Rattle.std.specs.Prelude.{◌≡◌, [], None as Nothing, refl};
ghost use Rattle.std.proofs.Common.{sym, subst};
ghost use Rattle.carrier.specs.Order.{Moves};
ghost use Rattle.carrier.specs.Waiting.{Gives};

use carrier::carrier::Carrier;
use carrier::datagram::Datagram;
use carrier::in_order::InOrder;
use elements::node::NodeNumber;

#[derive(Clone, Copy)]
pub struct Nowhere {}

impl Carrier for Nowhere {
    ghost waiting = { λ _. [] };

    ghost puts = { λ _ _ _. Unit {0} };

    ghost takes = { λ _ _ r _. r ≡ Nothing };

    ghost adds = { λ s f t p x h. absurd h };

    ghost gives = { λ s n r t nothing. subst (Gives [] n) (sym nothing) tt };

    ghost leaves = { λ s n r t nothing x h. h };

    fn put(&mut self, octets: &[u8]) {
        let _lost = octets;
    }

    fn take(&mut self, node: NodeNumber) -> Option<Datagram> {
        let _nobody = node;
        None
    }
}

impl InOrder for Nowhere {
    ghost last_given = { λ _ _ _. 0 };

    ghost still = { λ s f t p a b. refl };

    ghost moves = { λ s n r t nothing.
        subst (λ o. Moves (λ _ _. 0) o (λ _ _. 0)) (sym nothing) (λ a b. refl) };
}
