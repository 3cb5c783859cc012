// One mark for each slot, eight to a byte: a set of slots that starts empty and only grows.
// The bytes are the caller's, of any length: a type with a length of its own would ask more of callers of `mark`, `walk` and `chains_fit`, and one round a
// lent slice would leave them the same bounds.
#![tactic(auto)]

ghost use Rattle.std.specs.Prelude.{◌≡◌, ◌*◌, ◌<◌, length};
ghost use Rattle.check_marks.specs.Marks.{is_marked, mark_of, with_mark};

// Whether slot s has its mark.
#[tactic(auto, unfolding(crate::specs::Marks::mark_of, crate::specs::Marks::bit))]
pub fn is_marked(marks: &[u8], s: usize) -> bool
    requires { s < 8 * length marks.now }
    ensures { result ≡ is_marked marks.now s }
{
    (marks[s / 8] >> (s % 8)) % 2 != 0
}

// Marks slot s, which has no mark: so the sum sets one bit and carries nothing.
pub fn mark(marks: &mut [u8], s: usize)
    requires s_bound { s < 8 * length marks.old }
    requires s_value { mark_of marks.old s ≡ 0 }
    ensures { marks.new ≡ with_mark marks.old s }
{
    marks[s / 8] += 1 << (s % 8);
}
