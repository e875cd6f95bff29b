//! Moves that are made in a list of numbers.
ghost use Rattle.std.specs.Prelude.{◌≡◌, length};
ghost use Rattle.user_constraint.specs.Moves.{AreMoves, after_moves};

/// Makes the number at the place of each move its new one.
pub(crate) fn make_moves(list: &mut Vec<i64>, moves: &[(usize, i64)])
    requires { AreMoves (length list.old.items) moves.now }
    ensures { list.new.items ≡ after_moves list.old.items moves.now }
{
    for change in moves {
        list[change.0] = change.1;
    }
}
