// Text into a lent slice: what has no room is left out.
#![tactic(auto)]

ghost use Rattle.std.specs.Prelude.{[], ◌∷◌, ◌≡◌, ◌≤◌, length};

// The lent bytes, and the place of the next one.
#[derive(Drop)]
pub struct Text<'a> {
    pub out: &'a mut [u8],
    pub at: usize,
    ghost fits: { at ≤ length out.now },
}

impl<'a> Text<'a> {
    ghost use Rattle.text.specs.Text.{decimal, field as field_of};
    ghost use Rattle.text.specs.Grown.{Grown};

    pub fn new(out: &'a mut [u8]) -> Text<'a>
        ensures same_reference { result.out.ghost_name ≡ out.entry.ghost_name }
        ensures unwritten { result.out.now ≡ out.old }
        ensures start { result.at ≡ 0 }
    {
        Text { out, at: 0 }
    }

    pub fn push(&mut self, b: u8)
        ensures { Grown self.old (b ∷ []) self.new }
    {
        if self.at < self.out.len() {
            self.out[self.at] = b;
            self.at += 1;
        }
    }

    pub fn text(&mut self, text: &[u8])
        ensures { Grown self.old text.now self.new }
    {
        for b in text {
            self.push(*b);
        }
    }

    // A number in decimal digits.
    #[tactic(auto, using(crate::proofs::Digits::digits_are))]
    pub fn number(&mut self, n: u64)
        ensures { Grown self.old (decimal n) self.new }
    {
        // no heap: the digits are put into an array
        let mut digits = [0u8; 20];
        let k = io::decimal(n, &mut digits);
        self.text(&digits[..k]);
    }

    // A word, a number and what stands between and before them: spaces.
    pub fn field(&mut self, name: &[u8], n: u64)
        ensures { Grown self.old (field_of name.now n) self.new }
    {
        self.push(b' ');
        self.text(name);
        self.push(b' ');
        self.number(n);
    }
}
