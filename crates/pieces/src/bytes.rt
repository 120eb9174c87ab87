// The classes of bytes (specification, 'Reading back'), and the sets of bytes by which they are told.
ghost use Rattle.std.specs.Prelude.{◌≡◌};
ghost use Rattle.pieces.specs.Class.{class, is_word, is_operator};
ghost use Rattle.pieces.specs.Sets.{member, is_gap, is_single, is_quote};

#[derive(Clone, Copy, Debug, PartialEq, Eq)]
pub enum Class {
    // A line feed or a space.
    Gap,
    // One of ( ) [ ] { } , ; ? which is a piece by itself.
    Single,
    // " or '.
    Quote,
    // A letter, a digit, _ or a byte from 128 on.
    Word,
    // Any other of 33 to 126.
    Operator,
    // None of these.
    Unclassed,
}

// The class of the byte.
#[tactic(auto, using(crate::proofs::Sets::class_by_tests))]
pub fn class_of(b: u8) -> Class
    ensures { result ≡ class b }
{
    if is_word(b) {
        Class::Word
    } else if is_operator(b) {
        Class::Operator
    } else if is_single(b) {
        Class::Single
    } else if is_gap(b) {
        Class::Gap
    } else if is_quote(b) {
        Class::Quote
    } else {
        Class::Unclassed
    }
}

// Whether the byte is of the class Word.
#[tactic(auto, using(crate::proofs::Sets::words))]
pub fn is_word(b: u8) -> bool
    ensures { result ≡ is_word (class b) }
{
    WORDS.contains(b)
}

// Whether the byte is of the class Operator.
#[tactic(auto, using(crate::proofs::Sets::operators))]
pub fn is_operator(b: u8) -> bool
    ensures { result ≡ is_operator (class b) }
{
    OPERATORS.contains(b)
}

// Whether the byte is of the class Quote.
#[tactic(auto, using(crate::proofs::Sets::quotes))]
pub fn is_quote(b: u8) -> bool
    ensures { result ≡ is_quote (class b) }
{
    QUOTES.contains(b)
}

// Whether the byte is of the class Single.
#[tactic(auto, using(crate::proofs::Sets::singles))]
pub fn is_single(b: u8) -> bool
    ensures { result ≡ is_single (class b) }
{
    SINGLES.contains(b)
}

// Whether the byte is of the class Gap.
#[tactic(auto, using(crate::proofs::Sets::gaps))]
pub fn is_gap(b: u8) -> bool
    ensures { result ≡ is_gap (class b) }
{
    GAPS.contains(b)
}

// A set of bytes: the bits of those below 64, the bits of those from 64 to 127, and whether all others are in
// it.
#[derive(Clone, Copy, Debug, PartialEq, Eq)]
pub struct ByteSet {
    pub low: u64,
    pub high: u64,
    pub upper: bool,
}

impl ByteSet {
    // Whether the byte is in the set.
    pub fn contains(self, b: u8) -> bool
        ensures { result ≡ member self.low self.high self.upper b }
    {
        if b < 64 {
            return (self.low >> b) % 2 == 1;
        }
        if b < 128 {
            return (self.high >> (b - 64)) % 2 == 1;
        }
        self.upper
    }
}

pub const GAPS: ByteSet = ByteSet {
    low: 0x1_0000_0400,
    high: 0,
    upper: false,
};

pub const SINGLES: ByteSet = ByteSet {
    low: 0x8800_1300_0000_0000,
    high: 0x2800_0000_2800_0000,
    upper: false,
};

pub const QUOTES: ByteSet = ByteSet {
    low: 0x84_0000_0000,
    high: 0,
    upper: false,
};

pub const WORDS: ByteSet = ByteSet {
    low: 0x03ff_0000_0000_0000,
    high: 0x07ff_fffe_87ff_fffe,
    upper: true,
};

pub const OPERATORS: ByteSet = ByteSet {
    low: 0x7400_ec7a_0000_0000,
    high: 0x5000_0001_5000_0001,
    upper: false,
};
