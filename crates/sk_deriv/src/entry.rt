//! What the variables of a rule stand for.

/// What a variable of a rule stands for: a leaf of the program, a value that flows, or the point of a subterm.
#[derive(Drop)]
pub enum Entry<F> {
    Number(i64),
    Name(u8),
    Flow(F),
    Point(u16),
}
