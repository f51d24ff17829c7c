// The parts of blobs among the items.
ghost use Rattle.std.specs.Prelude.{◌≡◌, ℕ, ◌≤◌, length, take};
ghost use Rattle.lists.specs.Lists.{keep};
ghost use Rattle.found.specs.Found.{is_part};
ghost use Rattle.found.specs.Places.{item_at, Placed};
ghost use Rattle.lists.specs.Each.{Each};

// Of the first `n` places those of parts, put in front, in order. Answers how many.
pub fn keep_parts(image: &[u8], room: &mut [u16], n: usize) -> usize
    requires { Each (Placed image.now) (take n room.old) × (n ≤ length room.old) }
    ensures { (result ≤ n) × (take result room.new ≡ keep (λ (p : ℕ). is_part (item_at image.now p).raw) (take n room.old)) }
{
    let mut k: usize = 0;
    for i in 0..n {
        let place = room[i];
        if found::is_part(image, usize::from(place)) {
            room[k] = place;
            k += 1;
        }
    }
    k
}
