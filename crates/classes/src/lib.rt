// Class membership of each byte, a bit for each of the twelve classes.
#![tactic(auto)]

ghost use Rattle.std.specs.Prelude.{◌≡◌};
ghost use Rattle.classes.specs.Class.{class_word, in_class};

// How many classes there are.
const CLASSES: u8 = 12;

const CLASS_WORDS: [u16; 256] = [
    8, 8, 8, 8, 8, 8, 8, 8, 8, 524, 520, 520, 520, 520, 8, 8, 8, 8, 8, 8, 8, 8, 8, 8, 8, 8, 8, 8,
    8, 8, 8, 8, 644, 416, 416, 416, 416, 416, 416, 416, 416, 416, 416, 416, 416, 416, 416, 416,
    2225, 2225, 2225, 2225, 2225, 2225, 2225, 2225, 2225, 2225, 416, 416, 416, 416, 416, 416, 416,
    3235, 3235, 3235, 3235, 3235, 3235, 1187, 1187, 1187, 1187, 1187, 1187, 1187, 1187, 1187, 1187,
    1187, 1187, 1187, 1187, 1187, 1187, 1187, 1187, 1187, 1187, 416, 416, 416, 416, 416, 416, 2275,
    2275, 2275, 2275, 2275, 2275, 227, 227, 227, 227, 227, 227, 227, 227, 227, 227, 227, 227, 227,
    227, 227, 227, 227, 227, 227, 227, 416, 416, 416, 416, 8, 0, 0, 0, 0, 0, 0, 0, 0, 0, 0, 0, 0,
    0, 0, 0, 0, 0, 0, 0, 0, 0, 0, 0, 0, 0, 0, 0, 0, 0, 0, 0, 0, 0, 0, 0, 0, 0, 0, 0, 0, 0, 0, 0, 0,
    0, 0, 0, 0, 0, 0, 0, 0, 0, 0, 0, 0, 0, 0, 0, 0, 0, 0, 0, 0, 0, 0, 0, 0, 0, 0, 0, 0, 0, 0, 0, 0,
    0, 0, 0, 0, 0, 0, 0, 0, 0, 0, 0, 0, 0, 0, 0, 0, 0, 0, 0, 0, 0, 0, 0, 0, 0, 0, 0, 0, 0, 0, 0, 0,
    0, 0, 0, 0, 0, 0, 0, 0, 0, 0, 0, 0, 0, 0, 0, 0, 0, 0, 0, 0,
];

// The classes of a byte: bit k says whether it is in class k.
pub fn class_word(b: u8) -> u16
    ensures { result ≡ class_word b }
{
    CLASS_WORDS[usize::from(b)]
}

// Whether a byte is in class k. No byte is in a class past the twelfth.
pub fn in_class(k: u8, b: u8) -> bool
    ensures { result ≡ in_class k b }
{
    k < CLASSES && (class_word(b) >> k) % 2 == 1
}
