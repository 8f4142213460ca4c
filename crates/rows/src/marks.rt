ghost use Rattle.std.specs.Prelude.{◌≡◌, Bool, count_by, position};

// A test that a mark passes or does not.
// A trait and no closure: what a closure answers is a relation, and `find` and `count` promise an equation, with no condition.
pub trait Test<M> {
    // Whether a mark passes.
    ghost passes: { Self → M → Bool };

    // Whether a mark passes.
    fn passes(&self, mark: &M) -> bool
        ensures { result ≡ passes self.now mark.now };
}

// The lowest place whose mark passes.
// A loop and no chain: a chain that passes over the first place, which an edit tries, is refused for its form alone.
pub fn find<M, T: Test<M>>(marks: &[M], test: &T) -> Option<usize>
    ensures { result ≡ position (T.Test.passes test.now) marks.now }
{
    for (i, mark) in marks.iter().enumerate() {
        if test.passes(mark) {
            return Some(i);
        }
    }
    None
}

// How many marks pass.
pub fn count<M, T: Test<M>>(marks: &[M], test: &T) -> usize
    ensures { result ≡ count_by (T.Test.passes test.now) marks.now }
{
    marks.iter().filter(|m| test.passes(*m)).count()
}
