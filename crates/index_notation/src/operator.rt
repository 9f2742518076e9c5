//! The operators of two sides.
ghost use Rattle.std.specs.Prelude.{◌≡◌};
ghost use Rattle.index_notation.specs.Operators.{is_minus, is_product};

/// What stands between the two sides of a sum, a difference or a product.
#[derive(Clone, Copy, Debug, PartialEq, Eq)]
pub enum Operator {
    Add,
    Sub,
    Mul,
}

impl Operator {
    /// Whether it takes its second side away.
    pub fn is_minus(self) -> bool
        ensures { result ≡ is_minus self }
    {
        matches!(self, Operator::Sub)
    }

    /// Whether it multiplies its sides.
    pub fn is_product(self) -> bool
        ensures { result ≡ is_product self }
    {
        matches!(self, Operator::Mul)
    }
}
