//! Sets of signs.

ghost use Rattle.std.specs.Prelude.{◌≡◌, find};
ghost use Rattle.std.specs.Str.{bytes_eq};
ghost use Rattle.sk_sign.specs.Texts.{sign_text, set_named};

use crate::grid::{look_up, look_up_truth};
use crate::tables;
use sk_base::NoMemory;
use sk_lattice::{AbsBool, Arith, Compare, NumDom, Refine, Thresholds};
use sk_lex::{Lexeme, Token, lexeme_at};
use sk_value::put_bytes;

/// A set of signs.
#[derive(Clone, Copy, Debug, PartialEq, Eq)]
pub struct Sign {
    pub negative: bool,
    pub zero: bool,
    pub positive: bool,
}

/// All sets, in the order of their words.
const ALL_SETS: [Sign; 8] = [
    Sign {
        negative: false,
        zero: false,
        positive: false,
    },
    Sign {
        negative: true,
        zero: false,
        positive: false,
    },
    Sign {
        negative: false,
        zero: true,
        positive: false,
    },
    Sign {
        negative: false,
        zero: false,
        positive: true,
    },
    Sign {
        negative: true,
        zero: true,
        positive: false,
    },
    Sign {
        negative: false,
        zero: true,
        positive: true,
    },
    Sign {
        negative: true,
        zero: false,
        positive: true,
    },
    Sign {
        negative: true,
        zero: true,
        positive: true,
    },
];

impl Sign {
    /// The word of the set.
    fn word(self) -> &'static [u8]
        ensures { result.now ≡ sign_text self }
    {
        match (self.negative, self.zero, self.positive) {
            (false, false, false) => b"none",
            (true, false, false) => b"neg",
            (false, true, false) => b"zero",
            (false, false, true) => b"pos",
            (true, true, false) => b"nonpos",
            (false, true, true) => b"nonneg",
            (true, false, true) => b"nonzero",
            (true, true, true) => b"any",
        }
    }

    /// Whether this is the word of the set.
    fn has_word(&self, word: &[u8]) -> bool
        ensures { result ≡ bytes_eq (sign_text self.now) word.now }
    {
        self.word() == word
    }

    /// The set of a word.
    fn named(word: &[u8]) -> Option<Sign>
        ensures { result ≡ set_named word.now }
    {
        first_named(&ALL_SETS, word)
    }
}

/// The first of the sets with this word.
fn first_named(sets: &[Sign], word: &[u8]) -> Option<Sign>
    ensures { result ≡ find (λ set. bytes_eq (sign_text set) word.now) sets.now }
{
    for set in sets {
        if set.has_word(word) {
            return Some(*set);
        }
    }
    None
}

impl NumDom for Sign {
    ghost use Rattle.std.specs.Prelude.{true};
    ghost use Rattle.sk_sign.specs.Signs.{sign_domain};
    ghost use Rattle.sk_sign.specs.Laws.{sign_laws, sign_finite};
    ghost use Rattle.sk_sign.specs.Laws.Texts.{sign_text_laws};
    ghost use Rattle.sk_sign.specs.Texts.{sign_texts};

    const FINITE: bool = true;

    ghost FINITE = { true };

    ghost domain = { sign_domain };

    ghost texts = { sign_texts };

    fn domain_word() -> &'static str {
        "sign"
    }

    fn empty() -> Sign {
        Sign {
            negative: false,
            zero: false,
            positive: false,
        }
    }

    fn any() -> Sign {
        Sign {
            negative: true,
            zero: true,
            positive: true,
        }
    }

    fn of(number: i64) -> Sign {
        Sign {
            negative: number < 0,
            zero: number == 0,
            positive: number > 0,
        }
    }

    fn holds(self, number: i64) -> bool {
        match number {
            ..0 => self.negative,
            0 => self.zero,
            1.. => self.positive,
        }
    }

    fn is_empty(self) -> bool {
        !self.negative && !self.zero && !self.positive
    }

    fn leq(self, other: Sign) -> bool {
        (!self.negative || other.negative)
            && (!self.zero || other.zero)
            && (!self.positive || other.positive)
    }

    fn join(self, other: Sign) -> Sign {
        Sign {
            negative: self.negative || other.negative,
            zero: self.zero || other.zero,
            positive: self.positive || other.positive,
        }
    }

    fn meet(self, other: Sign) -> Sign {
        Sign {
            negative: self.negative && other.negative,
            zero: self.zero && other.zero,
            positive: self.positive && other.positive,
        }
    }

    fn widen(self, new: Sign, _marks: &Thresholds) -> Sign {
        self.join(new)
    }

    fn rank(self, _marks: &Thresholds) -> u64 {
        u64::from(!self.negative) + u64::from(!self.zero) + u64::from(!self.positive)
    }

    fn arith(op: Arith, a: Sign, b: Sign) -> Sign {
        match op {
            Arith::Add => look_up(&tables::ADD, a, b),
            Arith::Sub => look_up(&tables::SUB, a, b),
            Arith::Mul => look_up(&tables::MUL, a, b),
            Arith::Div => look_up(&tables::DIV, a, b),
            Arith::Rem => look_up(&tables::REM, a, b),
            Arith::Pick => look_up(&tables::PICK, a, b),
        }
    }

    fn neg(self) -> Sign {
        Sign {
            negative: self.positive,
            zero: self.zero,
            positive: self.negative,
        }
    }

    fn compare(op: Compare, a: Sign, b: Sign) -> AbsBool {
        match op {
            Compare::Lt => look_up_truth(&tables::LT, a, b),
            Compare::Le => look_up_truth(&tables::LE, a, b),
            Compare::Eq => look_up_truth(&tables::EQ, a, b),
        }
    }

    fn refine(op: Refine, a: Sign, b: Sign) -> (Sign, Sign) {
        match op {
            Refine::Below => (
                look_up(&tables::BELOW_LEFT, a, b),
                look_up(&tables::BELOW_RIGHT, a, b),
            ),
            Refine::AtLeast => (
                look_up(&tables::AT_LEAST_LEFT, a, b),
                look_up(&tables::AT_LEAST_RIGHT, a, b),
            ),
            Refine::Same => (
                look_up(&tables::SAME_LEFT, a, b),
                look_up(&tables::SAME_RIGHT, a, b),
            ),
            Refine::Differ => (
                look_up(&tables::DIFFER_LEFT, a, b),
                look_up(&tables::DIFFER_RIGHT, a, b),
            ),
        }
    }

    fn put_text(self, out: &mut Vec<u8>) -> Result<(), NoMemory> {
        put_bytes(out, self.word())
    }

    fn take_text(text: &[u8], tokens: &[Token], from: usize) -> Result<(Sign, usize), usize> {
        match lexeme_at(text, tokens, from) {
            Some(Lexeme::Word(word)) => match Sign::named(word) {
                Some(set) => Ok((set, from + 1)),
                None => Err(from),
            },
            _ => Err(from),
        }
    }

    ghost laws = { sign_laws };

    ghost finite = { sign_finite };

    ghost text_laws = { sign_text_laws };
}
