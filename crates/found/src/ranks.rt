// The order of versions and groups: by what stands in front of the key, and then by the key.
ghost use Rattle.std.specs.Prelude.{◌≡◌, eqb, ltb};
ghost use Rattle.found.specs.Ranks.{rank_number};

use entry::Key;

// What items are taken in order of: a version's namespace and start, or a group's namespace, and then the key. The order goes by the fields, in this order.
#[derive(Clone, Copy, PartialEq, Eq, PartialOrd, Ord)]
pub struct Rank {
    pub high: u32,
    pub key: Key,
}

// `a < b`, with what it answers as a promise, which the sort cites: what stands in front of the key decides, and then the key.
#[tactic(auto, using(crate::proofs::Ranking::rank_less_is))]
pub fn rank_less(a: Rank, b: Rank) -> bool
    ensures { result ≡ ltb (rank_number a) (rank_number b) }
{
    a.high < b.high || (a.high == b.high && entry::key_less(a.key, b.key))
}

// `a == b`, with what it answers as a promise, which callers of other crates cite: the law of `==` asks that both ranks' numbers fit.
pub fn rank_same(a: Rank, b: Rank) -> bool
    ensures { result ≡ eqb (rank_number a) (rank_number b) }
{
    a == b
}
