//! How tightly operators bind.

/// What an expression may stand as without parentheses: a factor, a product, or only a sum.
#[derive(Clone, Copy)]
pub enum Rank {
    Factor,
    Product,
    Sum,
}
