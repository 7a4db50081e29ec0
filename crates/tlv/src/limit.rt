ghost use Rattle.std.specs.Prelude.{◌≡◌};

use std::mem;

/// Narrows a reading limit, and puts back the one before when it is dropped.
/// A guard, because the limit that held before holds again behind each container, and behind a fault too.
pub struct Guard<'a> {
    pub limit: &'a mut usize,
    before: usize,
}

impl Drop for Guard<'_> {
    fn drop(self)
        ensures { self.exit.0.now ≡ self.entry.before }
    {
        let Guard { limit, before } = self;
        *limit = before;
    }
}

/// The limit is `end` from now on, until the guard is dropped.
pub fn narrow(limit: &mut usize, end: usize) -> Guard<'_>
    ensures lent { result.limit.ghost_name ≡ limit.entry.ghost_name }
    ensures held { result.before ≡ limit.old }
    ensures cut { result.limit.now ≡ end }
{
    let before = mem::replace(limit, end);
    Guard { limit, before }
}
