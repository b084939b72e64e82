// The searches over a channel's places and over a table's records: the lowest that passes a test, and whether any two fail one.
ghost use Rattle.std.specs.Prelude.{◌≡◌, ◌<◌, Bool, length, position, IfSome};
ghost use Rattle.record.specs.Searches.{Tests, TestsPairs, all_apart};

// The index of the first of `xs` that passes, or none.
// By an index and no iterator: 01 ("Which form to use where") has a search leave early and yield its index by `break`.
pub fn lowest<T, F: Fn(&T) -> bool>(xs: &[T], passes: F) -> Option<usize>
    requires { F.IsAlwaysCallable passes }

    // Whatever test the closure computes, the answer is the first index at which that test passes.
    ensures first { (test : T → Bool) → Tests F.Fn passes test → result ≡ position test xs.now }
    ensures within { IfSome result (λ i. i < length xs.now) }
{
    let mut i = 0;
    let at = loop {
        if i == xs.len() {
            return None;
        }
        if passes(&xs[i]) {
            break i;
        }
        i += 1;
    };
    Some(at)
}

// Whether each of `xs` is apart from all later ones. It leaves the walk at the first pair that is not.
// By `split_first` and no `for`: each turn needs what lies behind its element (the new form is no plainer).
#[tactic(auto, unfolding(crate::specs::Searches::all_apart))]
pub fn all_apart<T, F: Fn(&T, &T) -> bool>(xs: &[T], apart: F) -> bool
    requires { F.IsAlwaysCallable apart }

    // Whatever test of two the closure computes, the answer is whether that test passes of each element and each later one.
    ensures { (test : T → T → Bool) → TestsPairs F.Fn apart test → result ≡ all_apart test xs.now }
{
    let mut rest = xs;
    while let Some((x, later)) = rest.split_first() {
        if !later.iter().all(|y| apart(x, y)) {
            return false;
        }
        rest = later;
    }
    true
}
