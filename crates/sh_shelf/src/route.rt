// What a shelf keeps of an inner node.
ghost use Rattle.std.specs.Prelude.{◌≡◌};
ghost use Rattle.sh_image.specs.Inner.{Inner};
ghost use Rattle.sh_shelf.specs.Shelf.{route_of};

use sh_image::InnerImage;
use std::marker::Model;

/// An inner node of level 1, without its next node and with no more of its pairs than their number. It covers the keys
/// from `low` on below `high`.
#[derive(Clone, Copy, Debug, PartialEq, Eq)]
pub struct Route {
    pub low: u64,
    pub high: u64,
    pub version: u64,
    pub pairs: u32,
}

impl Model for Route {
    ghost use Rattle.std.{specs.Prelude.{length}, proofs.lemmas.List.{length-replicate}};
    ghost use Rattle.sh_image.specs.{declared.inner.Pair.{Pair}, Inner.{Inner}};
    ghost use Rattle.sh_shelf.specs.Shelf.{route};

    ghost Value = { Inner };

    ghost view = { λ r. route r.low r.high r.version r.pairs };

    ghost inverse = { λ a. record { low = a.low; high = a.high; version = a.version; pairs = length a.pairs } };

    ghost inverse_ok = { λ a h. λ i. record { low = a.low; high = a.high; version = a.version; pairs = length-replicate {A = Pair} a.pairs (record { separator = 0; child = 0 }) i } };
}

impl Route {
    pub(crate) fn of(image: &InnerImage) -> Route
        ensures { result ≡ route_of image.now }
    {
        Route {
            low: image.low(),
            high: image.high(),
            version: image.version(),
            pairs: image.pairs(),
        }
    }
}
