//! One of two.

/// One of the two.
#[derive(Drop)]
pub enum Either<A: Drop, B: Drop> {
    First(A),
    Second(B),
}
