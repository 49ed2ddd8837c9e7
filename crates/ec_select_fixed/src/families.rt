//! The code that an operator has on fixed-point operands.
ghost use Rattle.std.specs.Prelude.{◌≡◌};
ghost use Rattle.ec_select_fixed.specs.Types.{family_of};

use ec_core::BinOp;
use ec_select_order::Relation;

/// How the result of a binary operator is computed, of whose operands one is fixed-point at least.
#[derive(Clone, Copy)]
pub enum FixedFamily {
    /// The sum, or the difference.
    Added { minus: bool },
    /// The product of two bytes.
    Multiplied,
    /// The quotient.
    Divided,
    /// The first operand is shifted by the second one, to the left or to the right.
    Shifted { left: bool },
    /// Whether the operands, or where they are exchanged the second and the first one, stand in a relation.
    Compared { relation: Relation, exchanged: bool },
}

/// The code of an operator; that of `%`, `&`, `|` and `^` there is none, since they take integers only.
pub(crate) fn family_of(op: BinOp) -> Option<FixedFamily>
    ensures { result ≡ family_of op }
{
    let (relation, exchanged) = match op {
        BinOp::Add => return Some(FixedFamily::Added { minus: false }),
        BinOp::Sub => return Some(FixedFamily::Added { minus: true }),
        BinOp::Mul => return Some(FixedFamily::Multiplied),
        BinOp::Div => return Some(FixedFamily::Divided),
        BinOp::Shl => return Some(FixedFamily::Shifted { left: true }),
        BinOp::Shr => return Some(FixedFamily::Shifted { left: false }),
        BinOp::Rem | BinOp::And | BinOp::Or | BinOp::Xor => return None,
        BinOp::Lt => (Relation::Less, false),
        BinOp::Gt => (Relation::Less, true),
        BinOp::Le => (Relation::NotLess, true),
        BinOp::Ge => (Relation::NotLess, false),
        BinOp::Eq => (Relation::Equal, false),
        BinOp::Ne => (Relation::NotEqual, false),
    };
    Some(FixedFamily::Compared {
        relation,
        exchanged,
    })
}
