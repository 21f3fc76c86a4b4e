//! What a numeric domain is.

ghost use Rattle.std.specs.Prelude.{◌≡◌, ◌≤◌, ◌++◌, drop, length, Ok, Some, OnOk, OnErr};
ghost use Rattle.sk_base.specs.Sink.{AppendsPrefix};
ghost use Rattle.sk_lex.specs.Symbols.{symbols};
ghost use Rattle.sk_lex.specs.Tokens.{tokens_of};
ghost use Rattle.sk_lattice.specs.DomainTexts.{taken_at};

use crate::thresholds::Thresholds;
use crate::truth::AbsBool;
use sk_base::NoMemory;
use sk_lex::Token;
use sk_value::{Arith, Compare, Refine};

/// Elements that stand for sets of numbers, with their order and the operations on them.
pub trait NumDom: Copy {
    ghost use Rattle.std.specs.Prelude.{Bool};
    ghost use Rattle.sk_lattice.specs.Domain.{Domain};
    ghost use Rattle.sk_lattice.specs.DomainLaws.{DomainLaws, FiniteLaw};
    ghost use Rattle.sk_lattice.specs.DomainTexts.{DomainTexts, TextLaws};

    /// Whether every widening is the join.
    const FINITE: bool;

    ghost FINITE: { Bool };

    /// What each call computes.
    ghost domain: { Domain Self };

    /// The texts of the elements.
    ghost texts: { DomainTexts Self };

    /// The domain's word in texts.
    fn domain_word() -> &'static str
        ensures { result.now ≡ texts.word };

    /// The element that holds no number.
    fn empty() -> Self
        ensures { result ≡ domain.empty };

    /// The element that holds every number.
    fn any() -> Self
        ensures { result ≡ domain.any };

    /// The element of one number.
    fn of(number: i64) -> Self
        ensures { result ≡ domain.of number };

    /// Whether a number is held.
    fn holds(self, number: i64) -> bool
        ensures { result ≡ domain.holds self number };

    /// Whether this is the empty element.
    fn is_empty(self) -> bool
        ensures { result ≡ domain.is_empty self };

    /// Whether this element lies below the other.
    fn leq(self, other: Self) -> bool
        ensures { result ≡ domain.leq self other };

    /// The least element above both.
    fn join(self, other: Self) -> Self
        ensures { result ≡ domain.join self other };

    /// The greatest element below both.
    fn meet(self, other: Self) -> Self
        ensures { result ≡ domain.meet self other };

    /// An element above both, so chosen that no element can be widened without end.
    fn widen(self, new: Self, marks: &Thresholds) -> Self
        ensures { result ≡ domain.widen self new marks.now };

    /// A number that falls where a widening changes the element.
    fn rank(self, marks: &Thresholds) -> u64
        ensures { result ≡ domain.rank self marks.now };

    /// An element that holds every result of the operation.
    fn arith(op: Arith, a: Self, b: Self) -> Self
        ensures { result ≡ domain.arith op a b };

    /// An element that holds the negation of every number.
    fn neg(self) -> Self
        ensures { result ≡ domain.neg self };

    /// The answers of the comparison.
    fn compare(op: Compare, a: Self, b: Self) -> AbsBool
        ensures { result ≡ domain.compare op a b };

    /// Elements that hold both sides of every pair that is kept.
    fn refine(op: Refine, a: Self, b: Self) -> (Self, Self)
        ensures { result ≡ domain.refine op a b };

    /// Appends the element's text. After a refusal a prefix of it was appended.
    fn put_text(self, out: &mut Vec<u8>) -> Result<(), NoMemory>
        ensures ok { OnOk result (out.new.items ≡ out.old.items ++ texts.text self) }
        ensures err { OnErr result (AppendsPrefix (Some out.old.items) (Some out.new.items) (texts.text self)) };

    /// The element whose text stands at a place of a text's tokens, with the place after it, or the place of the first
    /// token that fits no element's text.
    fn take_text(text: &[u8], tokens: &[Token], from: usize) -> Result<(Self, usize), usize>
        requires tokens { tokens_of text.now ≡ Ok tokens.now }
        requires place { from ≤ length tokens.now }
        ensures { result ≡ taken_at from (texts.taken (drop from (symbols text.now tokens.now))) };

    /// The laws that every domain meets.
    ghost laws: { DomainLaws domain };

    ghost finite: { FiniteLaw FINITE domain };

    ghost text_laws: { TextLaws domain texts };
}
