// The C function of liblisting.a. Its contract is that of crate listing's function of the same name.
#![tactic(auto)]

ghost use Rattle.std.specs.Prelude.{◌≡◌, length};
ghost use Rattle.listing.specs.Listing.{replay_answer, replay_leaves};

// The listing of a script goes to the front of `out`, every byte after it kept; its length comes back. 2^32 + 19 for a script over 65,536 bytes,
// 2^32 + 20 for a listing longer than `out`, which is then as it was.
#[unsafe(no_mangle)]
pub extern "C" fn dimecandle_replay(script: &[u8], out: &mut [u8]) -> u64
    ensures { (result ≡ replay_answer script.now (length out.old)) × (out.new ≡ replay_leaves script.now out.old) }
{
    listing::dimecandle_replay(script, out)
}
