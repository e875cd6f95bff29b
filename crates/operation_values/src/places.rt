//! The violation at a place of a constraint.
ghost use Rattle.std.specs.Prelude.{◌≡◌, ◌<◌, IsTrue, IfOk, IsOk, length};
ghost use Rattle.cbl_base.specs.Inputs.{kinds_of, numbers_of};
ghost use Rattle.cbl_operations.specs.RuleOf.{rule_of};
ghost use Rattle.term_model.specs.Users.{user_rules};

use crate::operation::numbers_of;
use crate::users::UserValues;
use cbl_base::{Input, NoMemory};
use cbl_operations::Op;
use std::alloc::Global;

/// The violation at a place of a constraint that has a value, counted from 0; 0 for what isn't a constraint.
pub fn violation_at<U: UserValues>(
    alloc: Global,
    users: &U,
    op: &Op,
    inputs: &[Input],
    place: usize,
) -> Result<i64, NoMemory>
    requires takes { IsTrue ((rule_of (user_rules (U.viol_of users.now)
        (U.viol_at users.now)) op.now).takes (kinds_of inputs.now)) }
    requires valued { IsOk ((rule_of (user_rules (U.viol_of users.now)
        (U.viol_at users.now)) op.now).value inputs.now) }
    requires within { place < length inputs.now }
    ensures { IfOk result (λ v. v ≡ (rule_of
        (user_rules (U.viol_of users.now)
        (U.viol_at users.now)) op.now).violation_at inputs.now place) }
{
    let xs = numbers_of(alloc, inputs)?;
    match op {
        Op::Constraint(constraint) => Ok(constraint.violation_at(&xs, place)),
        Op::User { number } => users.violation_at(*number, &xs, place),
        _ => Ok(0),
    }
}
