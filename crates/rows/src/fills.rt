ghost use Rattle.std.specs.Prelude.{◌≡◌, ℕ, map, length};
ghost use Rattle.std.specs.List.{range_with_len};

// A rule that says which mark each place begins with.
// A trait and no closure: as for a test, the promise is an equation, with no condition.
pub trait Rule<M> {
    // The mark of place i.
    ghost at: { Self → ℕ → M };

    // The mark of place i.
    fn at(&self, i: usize) -> M
        ensures { result ≡ at self.now i };
}

// Gives each place the mark that a rule says.
// A loop: the library fills a slice by what has no index.
pub fn fill<M: Copy, R: Rule<M>>(marks: &mut [M], rule: &R)
    ensures { marks.new ≡ map (R.Rule.at rule.now) (range_with_len 0 (length marks.old)) }
{
    for i in 0..marks.len() {
        marks[i] = rule.at(i);
    }
}
