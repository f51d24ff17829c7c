// What the scan sees of each sector, by value.
ghost use Rattle.std.specs.Prelude.{◌≡◌, ◌≤◌, length};

use layout::MOST_SECTORS;
use page::Seen;

// The first `count` places, one for each sector, in sector order.
#[derive(Clone, Copy)]
pub struct Scanned {
    pub seen: [Seen; MOST_SECTORS],
    pub count: usize,
    ghost sixteen: { count ≤ 16 },
}

impl Scanned {
    ghost use Rattle.records.specs.Scanned.{listed};

    // What was seen of the sectors. (The clause tells the array's length too, which a caller can't read off a value that is only lent.)
    pub fn listed(&self) -> &[Seen]
        ensures { (result.now ≡ listed self.now) × (length self.now.seen ≡ 16) }
    {
        &self.seen[..self.count]
    }
}
