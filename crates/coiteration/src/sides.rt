/// A cursor of one of two types, so that a loop may have both.
#[derive(Drop)]
pub enum EitherCursor<A, B> {
    First(A),
    Second(B),
}
