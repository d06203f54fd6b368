// The lines of a script that are left to run.
ghost use Rattle.std.specs.Prelude.{◌≡◌, ◌∷◌, [], MatchOption, reverse};

use s2_model::Line;

/// Takes the first of the lines that are left, which stand the last one first. Room that many lines had is let go.
pub fn take_line(left: &mut Vec<Line>) -> Option<Line>
    ensures { MatchOption result (left.old.items ≡ []) (λ line. reverse left.old.items ≡ line ∷ reverse left.new.items) }
{
    let line = left.pop();
    if left.len() < left.capacity() / 2 {
        left.shrink_to(0);
    }
    line
}
