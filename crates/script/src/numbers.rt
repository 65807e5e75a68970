// The numbers of a command: decimal, with an optional minus; and what each place can hold.
ghost use Rattle.std.specs.Prelude.{◌≡◌};
ghost use Rattle.script.specs.Number.{size_of, number_in, number_of, nothing};
ghost use Rattle.script.specs.Place.{number_at, natural_of, word_of, byte_of, signed_of, first_among, only_byte_of};
ghost use Rattle.script.specs.own.Growing.{grown, with_number};

// A word that is a number: its sign and its size.
#[derive(Clone, Copy, PartialEq, Eq, Debug)]
pub struct Number {
    pub minus: bool,
    pub size: u64,
}

// The words behind a command's name: how many, and the first ten, of which a word that is no number is none. An array with a count beside it, since there is no heap.
#[derive(Clone, Copy)]
pub struct Numbers {
    pub count: usize,
    pub all: [Option<Number>; 10],
}

// One digit more, where 64 bits hold it.
#[tactic(auto, unfolding(crate::specs::own::Growing::grown))]
fn grow(size: u64, b: u8) -> Option<u64>
    ensures { result ≡ grown size b }
{
    if !b.is_ascii_digit() {
        return None;
    }
    size.checked_mul(10)?.checked_add(u64::from(b - b'0'))
}

// Digits, behind a minus or not.
#[tactic(auto, unfolding(crate::specs::Number::number_in, crate::specs::Number::size_of))]
fn digits(text: &[u8], minus: bool) -> Option<Number>
    ensures { result ≡ number_in minus (size_of text.now) }
{
    if text.is_empty() {
        return None;
    }
    let mut size = 0;
    for b in text {
        size = grow(size, *b)?;
    }
    Some(Number { minus, size })
}

pub(crate) fn read(word: &[u8]) -> Option<Number>
    ensures { result ≡ number_of word.now }
{
    match word.strip_prefix(b"-") {
        Some(text) => digits(text, true),
        None => digits(word, false),
    }
}

impl Numbers {
    pub(crate) fn none() -> Numbers
        ensures { result ≡ nothing }
    {
        Numbers {
            count: 0,
            all: [None; 10],
        }
    }

    // One number more; of those past the tenth only that there are more than ten.
    #[tactic(auto, unfolding(crate::specs::own::Growing::with_number))]
    pub(crate) fn add(&mut self, x: Option<Number>)
        ensures { self.new ≡ with_number self.old x }
    {
        if self.count < 10 {
            self.all[self.count] = x;
            self.count += 1;
        } else {
            self.count = 11;
        }
    }

    // The k-th number, from 0 on.
    #[tactic(auto, unfolding(crate::specs::Place::number_at))]
    fn at(&self, k: usize) -> Option<Number>
        ensures { result ≡ number_at self.now k }
    {
        *self.all.get(k)?
    }

    // The k-th number, where it is not below 0.
    #[tactic(auto, unfolding(crate::specs::Place::natural_of))]
    pub fn natural_at(&self, k: usize) -> Option<u64>
        ensures { result ≡ natural_of (number_at self.now k) }
    {
        let x = self.at(k)?;
        if x.minus && x.size != 0 {
            return None;
        }
        Some(x.size)
    }

    #[tactic(auto, unfolding(crate::specs::Place::word_of))]
    pub fn word_at(&self, k: usize) -> Option<u32>
        ensures { result ≡ word_of (natural_of (number_at self.now k)) }
    {
        u32::try_from(self.natural_at(k)?).ok()
    }

    #[tactic(auto, unfolding(crate::specs::Place::byte_of))]
    pub fn byte_at(&self, k: usize) -> Option<u8>
        ensures { result ≡ byte_of (natural_of (number_at self.now k)) }
    {
        u8::try_from(self.natural_at(k)?).ok()
    }

    // The one number that there is.
    #[tactic(auto, unfolding(crate::specs::Place::only_byte_of, crate::specs::Place::byte_of))]
    pub fn only_byte(&self) -> Option<u8>
        ensures { result ≡ only_byte_of self.now }
    {
        u8::try_from(self.first_among(1)?).ok()
    }

    // The first number, where there are so many.
    #[tactic(auto, unfolding(crate::specs::Place::first_among))]
    pub fn first_among(&self, many: usize) -> Option<u64>
        ensures { result ≡ first_among many self.now }
    {
        if self.count != many {
            return None;
        }
        self.natural_at(0)
    }

    // A number of either sign.
    #[tactic(auto, unfolding(crate::specs::Place::signed_of, crate::specs::Place::signed_size))]
    pub fn signed_at(&self, k: usize) -> Option<i32>
        ensures { result ≡ signed_of (number_at self.now k) }
    {
        let x = self.at(k)?;
        let size = i64::try_from(x.size).ok()?;
        i32::try_from(if x.minus { -size } else { size }).ok()
    }
}
