// The C function of libidset.a. Its contract is that of crate idset's function of the same name.
#![tactic(auto)]

ghost use Rattle.std.specs.Prelude.{◌≡◌, false, take};
ghost use Rattle.idset.specs.Places.{two_apart};

// Whether two ascending sets differ in two ids or more; so that a host can measure the walk's stack alone.
#[unsafe(no_mangle)]
pub extern "C" fn dimecandle_two_apart<'a>(a: &'a [u64], m: usize, b: &'a [u64], n: usize) -> bool
    ensures { result ≡ two_apart false (take m a.now) (take n b.now) }
{
    idset::dimecandle_two_apart(a, m, b, n)
}
