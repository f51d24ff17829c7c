// The runs of the sorted places: those of one group, or of one namespace.
ghost use Rattle.std.specs.Prelude.{ℕ, ◌<◌, length, get_or};
ghost use Rattle.found.specs.Places.{Placed};
ghost use Rattle.lists.specs.Each.{Each};
ghost use Rattle.sort.specs.Rank.{group_by};
ghost use Rattle.sort.specs.Runs.{FirstFails, RunEnds};

// The index of the first place behind `a` that is not in the run by the test, or the end.
pub fn end_of<F: Fn(usize) -> bool>(places: &[u16], a: usize, in_run: F) -> usize
    requires starts { a < length places.now }
    requires callable { (k : ℕ) → k < length places.now → F.pre in_run (get_or places.now k 0) }
    ensures { FirstFails (F.post in_run) places.now a result }
{
    for e in a + 1..places.len() {
        if !in_run(usize::from(places[e])) {
            return e;
        }
    }
    places.len()
}

// Where the run that begins at `a` ends.
pub fn run_end(image: &[u8], places: &[u16], a: usize) -> usize
    requires { Each (Placed image.now) places.now × (a < length places.now) }
    ensures { RunEnds group_by image.now places.now a result }
{
    let g = found::group_at(image, usize::from(places[a]));
    end_of(places, a, |p| found::group_at(image, p) == g)
}
