//! The order of words in a forest.
ghost use Rattle.std.specs.Prelude.{◌≡◌, ◌↔◌, ◌<◌, [], ◌∷◌, length, IsTrue};
ghost use Rattle.sk_deriv.specs.Forest.{tree_at};
ghost use Rattle.sk_deriv.specs.Tree.{word, IsBefore};
ghost use Rattle.sk_deriv.specs.Cursors.{Comes, rest_word, IsInForest};

use crate::{Forest, Step};

/// Where a walk along a word stands: the steps that are left of a node, and of the nodes above it.
#[derive(Clone, Copy)]
enum Cursor<'a> {
    End,
    Within {
        steps: &'a [Step],
        above: &'a Cursor<'a>,
    },
}

/// What comes next in a walk, and what is left after it.
#[derive(Clone, Copy)]
enum Next<'a> {
    End,
    Up(&'a Cursor<'a>),
    Pick(u32, &'a [Step], &'a Cursor<'a>),
    Sub(usize, &'a [Step], &'a Cursor<'a>),
}

/// What comes next.
fn what_comes<'a>(cursor: &Cursor<'a>) -> Next<'a>
    ensures { Comes cursor.now result }
{
    match *cursor {
        Cursor::End => Next::End,
        Cursor::Within { steps, above } => match steps.split_first() {
            None => Next::Up(above),
            Some((Step::Pick(k), rest)) => Next::Pick(*k, rest, above),
            Some((Step::Sub(child), rest)) => Next::Sub(*child, rest, above),
        },
    }
}

impl Forest {
    /// Whether the word of the first node's derivation comes before the second one's.
    pub fn less(&self, a: usize, b: usize) -> bool
        requires first { a < length self.now }
        requires second { b < length self.now }
        ensures { IsTrue result ↔ IsBefore (word (tree_at self.now a)) (word (tree_at self.now b)) }
    {
        let left = Cursor::Within {
            steps: self.get(a).steps.as_slice(),
            above: &Cursor::End,
        };
        let right = Cursor::Within {
            steps: self.get(b).steps.as_slice(),
            above: &Cursor::End,
        };
        self.is_before(&left, &right)
    }

    /// Whether what is left of the first word comes before what is left of the second.
    #[cycle(words)]
    fn is_before(&self, a: &Cursor, b: &Cursor) -> bool
        requires first { IsInForest self.now a.now }
        requires second { IsInForest self.now b.now }
        ensures { IsTrue result ↔ IsBefore (rest_word self.now a.now) (rest_word self.now b.now) }
    {
        match what_comes(a) {
            Next::End => self.goes_on(b),
            Next::Up(above) => self.is_before(above, b),
            Next::Pick(pick, steps, above) => {
                self.pick_is_before(pick, &Cursor::Within { steps, above }, b)
            }
            Next::Sub(child, steps, above) => {
                let later = Cursor::Within { steps, above };
                let inner = self.get(child).steps.as_slice();
                self.is_before(
                    &Cursor::Within {
                        steps: inner,
                        above: &later,
                    },
                    b,
                )
            }
        }
    }

    /// Whether a pick with what is left of the first word comes before what is left of the second.
    #[cycle(words)]
    fn pick_is_before(&self, pick: u32, a: &Cursor, b: &Cursor) -> bool
        requires first { IsInForest self.now a.now }
        requires second { IsInForest self.now b.now }
        ensures { IsTrue result ↔ IsBefore (pick ∷ rest_word self.now a.now) (rest_word self.now b.now) }
    {
        match what_comes(b) {
            Next::End => false,
            Next::Up(above) => self.pick_is_before(pick, a, above),
            Next::Pick(other, steps, above) => {
                pick < other
                    || (pick == other && self.is_before(a, &Cursor::Within { steps, above }))
            }
            Next::Sub(child, steps, above) => {
                let later = Cursor::Within { steps, above };
                let inner = self.get(child).steps.as_slice();
                self.pick_is_before(
                    pick,
                    a,
                    &Cursor::Within {
                        steps: inner,
                        above: &later,
                    },
                )
            }
        }
    }

    /// Whether something is left of a word.
    fn goes_on(&self, cursor: &Cursor) -> bool
        requires { IsInForest self.now cursor.now }
        ensures { IsTrue result ↔ IsBefore [] (rest_word self.now cursor.now) }
    {
        match what_comes(cursor) {
            Next::End => false,
            Next::Up(above) => self.goes_on(above),
            Next::Pick(_, _, _) => true,
            Next::Sub(child, steps, above) => {
                let later = Cursor::Within { steps, above };
                let inner = self.get(child).steps.as_slice();
                self.goes_on(&Cursor::Within {
                    steps: inner,
                    above: &later,
                })
            }
        }
    }
}
