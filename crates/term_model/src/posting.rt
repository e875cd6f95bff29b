//! What was posted, on the side of systems or of objectives.
ghost use Rattle.std.specs.Prelude.{◌≡◌, ◌<◌, ℕ};
ghost use Rattle.std.specs.Option.{ForSome, option_map};
ghost use Rattle.term_model.specs.Posting.{member_at, number_by, number_in, term_posted, totals_by};
ghost use Rattle.term_model.specs.Wellformed.{IsThere};

use crate::model::{Model, Posted, Total};
use crate::term::Term;

/// All systems, or all objectives.
#[derive(Clone, Copy, PartialEq, Eq, Debug)]
pub enum Side {
    Systems,
    Objectives,
}

/// The systems or the objectives of a model.
pub fn totals_by(model: &Model, side: Side) -> &[Total]
    ensures { result.now ≡ totals_by model.now side }
{
    match side {
        Side::Systems => &model.systems,
        Side::Objectives => &model.objectives,
    }
}

/// A member of a system or an objective that was posted.
#[derive(Clone, Copy, PartialEq, Eq, Debug)]
pub struct Posting {
    pub total: u32,
    pub member: u32,
}

/// What was posted, where it is a member on this side.
pub fn posting_of(side: Side, posted: Posted) -> Option<Posting>
    ensures number { (k : ℕ) → number_by side k posted ≡ number_in k result }
    ensures there { (count : ℕ) → ForSome result (λ posting. posting.total < count) →
        IsThere side count posted }
{
    match (side, posted) {
        (Side::Systems, Posted::Constrain { system, member }) => Some(Posting {
            total: system,
            member,
        }),
        (Side::Objectives, Posted::Part { objective, member }) => Some(Posting {
            total: objective,
            member,
        }),
        _ => None,
    }
}

/// The term of a member of one of these systems or objectives.
fn member_term(totals: &[Total], number: u32, member: u32) -> Option<&Term>
    ensures { option_map (λ t. t.now) result ≡
        option_map (λ m. m.term) (member_at totals.now number member) }
{
    let total = totals.get(number as usize)?;
    let member = total.members.get(member as usize)?;
    Some(&member.term)
}

/// The term of what was posted.
pub fn term_posted(model: &Model, posted: Posted) -> Option<&Term>
    ensures { option_map (λ t. t.now) result ≡ term_posted model.now posted }
{
    match posted {
        Posted::Define(number) => Some(&model.defs.get(number as usize)?.term),
        Posted::Constrain { system, member } => member_term(&model.systems, system, member),
        Posted::Part { objective, member } => member_term(&model.objectives, objective, member),
    }
}
