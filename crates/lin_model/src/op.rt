//! The comparisons of canonical atoms.

ghost use Rattle.std.specs.Prelude.{◌≡◌};
ghost use Rattle.lin_model.specs.Test.{passes, code_of};

/// How an atom compares its form with its constant.
#[derive(Clone, Copy, Debug, PartialEq, Eq)]
pub enum Op {
    /// At most the constant.
    Le,
    /// At least the constant.
    Ge,
    /// The constant itself.
    Eq,
    /// Any other number.
    Ne,
}

impl Op {
    /// The number that stands for this op in the order of atoms.
    pub fn code(self) -> u8
        ensures { result ≡ code_of self }
    {
        match self {
            Op::Le => 1,
            Op::Ge => 2,
            Op::Eq => 3,
            Op::Ne => 4,
        }
    }

    /// Whether `value` compares with `constant` as this op asks.
    pub fn passes(self, constant: i64, value: i128) -> bool
        ensures { result ≡ passes self constant value }
    {
        let constant = i128::from(constant);
        match self {
            Op::Le => value <= constant,
            Op::Ge => value >= constant,
            Op::Eq => value == constant,
            Op::Ne => value != constant,
        }
    }
}
